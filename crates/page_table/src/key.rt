/// A page of a segment.
#[derive(Clone, Copy)]
pub struct Key {
    pub segment: u16,
    pub page: u32,
}
