// Section 3: the marker scanner.
use crate::answers;
use crate::items::ToldKind;
use block_marker::{Marker, MarkerItem};
use stored::numbers::Numbers;

impl ToldKind for Marker {
    fn told(item: MarkerItem, reply: Numbers) -> Numbers {
        answers::span(item.span, reply.byte(item.marker))
    }
}
