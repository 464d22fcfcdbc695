// What a scan does in turns.

// One turn of a scan: on from a later place; nothing left, and the place where the scan stays; or a thing found, and where the scan goes on.
#[derive(Clone, Copy)]
pub enum Turn<T> {
    Go(usize),
    Stop(usize),
    Found(T, usize),
}
