//! Classes of keys, by which a section tells of most keys that none of its lines has them.

ghost use Rattle.std.specs.Prelude.{◌≡◌, ◌<◌};
ghost use Rattle.variant_ini.specs.Classes.{class_of};

/// How many classes there are.
pub(crate) const CLASSES: usize = 1024;

/// The class of a key.
pub(crate) fn class_of(key: &[u8]) -> usize
    ensures is { result ≡ class_of key.now }
    ensures below { result < 1024 }
{
    let mut class = 0;
    for byte in key {
        class = (class * 31 + usize::from(*byte)) % CLASSES;
    }
    class
}
