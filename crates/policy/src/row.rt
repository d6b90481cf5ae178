// What a policy is told of one guest.
#[derive(Clone, Copy, PartialEq, Eq, Debug, Default)]
pub struct Row {
    // whether the guest may be chosen
    pub offered: bool,
    // its resident pages, and how many of them are active
    pub resident: u16,
    pub active: u16,
    pub minimum: u16,
    pub shares: u32,
    // its place among the guests by its oldest page, from 0
    pub rank: Option<u16>,
}
