// Section 4: the scanner of numbered items.
use crate::answers;
use crate::items::ToldKind;
use block_numbered::{Numbered, NumberedItem};
use stored::numbers::Numbers;

impl ToldKind for Numbered {
    fn told(item: NumberedItem, reply: Numbers) -> Numbers {
        answers::span(item.span, reply.and(item.number).byte(item.delimiter))
    }
}
