//! The bytes of one file in the place of the machine's files.
ghost use Rattle.std.specs.Prelude.{◌≡◌, ◌≢◌, [], Some};
ghost use Rattle.std.specs.Option.{option_copied};
ghost use Rattle.io_ports.specs.Cause.{HasCause};
ghost use Rattle.io_ports.specs.Files.{Finds, given_reads};
ghost use Rattle.referee.specs.Refereed.{all_have};

use io_ports::{Files, Given, MAX_FILE};

/// Files of which each has these bytes, whatever its name is; where there are none, there is no file.
#[derive(Drop)]
pub(crate) struct GivenFile<'f> {
    pub(crate) bytes: Option<&'f [u8]>,
}

// Puts a file's bytes in the place of what the buffer has, unless there are too many.
fn give(bytes: &[u8], out: &mut Vec<u8>) -> Given
    ensures finds { Finds (Some (λ name. Some bytes.now)) (given_reads [] result out.new.items) }
    ensures works { result ≢ Given.Failed }
{
    if bytes.len() > MAX_FILE {
        return Given::TooLarge;
    }
    out.clear();
    match out.extend_from_slice(bytes) {
        Ok(()) => Given::Bytes,
        Err(_) => Given::Memory,
    }
}

impl Files for GivenFile<'_> {
    ghost contents = { λ files. Some (all_have (option_copied files.bytes)) };

    ghost faults = { λ files. 0 };

    fn read(&mut self, name: &[u8], out: &mut Vec<u8>) -> Given
        ensures finds { Finds (Some (all_have (option_copied self.old.bytes)))
            (given_reads name.now result out.new.items) }
        ensures same { Some (all_have (option_copied self.new.bytes)) ≡ Some (all_have (option_copied self.old.bytes)) }
        ensures cause { HasCause 0 0 (result ≡ Given.Failed) }
    {
        match self.bytes {
            None => Given::Missing,
            Some(bytes) => give(bytes, out),
        }
    }
}
