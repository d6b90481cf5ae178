// What a map has besides its table: the root, the first free record and the number of pairs.
#[derive(Clone, Copy)]
pub struct Head {
    pub(crate) root: Option<u16>,
    pub(crate) free: Option<u16>,
    pub(crate) count: u16,
}
