// What reading a list finds: its length, its count and where its entries end. In a module of its own: beside `read` its name would differ in case only.
#[derive(Clone, Copy, Debug, PartialEq, Eq)]
pub struct Read {
    pub length: u16,
    pub count: u16,
    pub end: u16,
}
