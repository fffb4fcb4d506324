use clocks::Version;

// A version, with the key that it belongs to.
#[derive(Clone, Copy)]
pub struct Record {
    pub key: usize,
    pub version: Version,
}
