use foundation::Text;

/// One pair of a section: a key, which is not empty, and its value, which may be.
#[derive(Drop)]
pub struct KeyLine {
    pub key: Text,
    pub value: Text,
}
