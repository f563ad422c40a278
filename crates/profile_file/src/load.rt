//! A profile from a file.
ghost use Rattle.std.specs.Prelude.{◌≡◌, ◌≤◌, ◌⊎◌, Err, None};
ghost use Rattle.qos_io.specs.Bytes.{bytes_in};
ghost use Rattle.qos_io.specs.Shelves.{ChangesOnly};
ghost use Rattle.profile_file.specs.Loaded.{IsLoaded, IsAnswer};

use crate::LoadFault;
use crate::text::read_text;
use profile_plan::Profile;
use qos_io::{PutFault, Shelf};
use qos_profile::{ProfileError, read_profile};
use std::alloc::Global;

/// The profile that the file of this name says.
///
/// No more than 1,048,577 bytes are read, one more than a text may have. `Unread` where the file was not opened or a
/// read failed, `Fault` with the first fault of its text, and `NoMemory` where memory was refused.
pub fn load_profile<H: Shelf>(
    alloc: Global,
    shelf: &mut H,
    name: &str,
) -> Result<Profile, LoadFault>
    ensures loaded { H.Tells shelf.old → IsLoaded (bytes_in (H.file shelf.old name.now)) result }
    ensures read { H.IsSureToRead shelf.old name.now → result ≡ Err LoadFault.Unread → ⊥ }
    ensures absent { H.Tells shelf.old → H.file shelf.old name.now ≡ None → (H.IsSureToRead shelf.old name.now → ⊥)
        → (result ≡ Err LoadFault.Unread) ⊎ (result ≡ Err LoadFault.NoMemory) }
    ensures others { ChangesOnly H.Shelf None shelf.old shelf.new }
    ensures closed { H.Tells shelf.old → H.closed shelf.new ≡ H.closed shelf.old }
    ensures never_falls { H.faults shelf.old ≤ H.faults shelf.new }
{
    let source = shelf.open_in(name).map_err(unread)?;
    let text = read_text(alloc, source).map_err(unread)?;
    profile_of(alloc, text.as_slice())
}

fn unread(fault: PutFault) -> LoadFault
    ensures failed { fault ≡ PutFault.Failed → result ≡ LoadFault.Unread }
    ensures memory { fault ≡ PutFault.NoMemory → result ≡ LoadFault.NoMemory }
{
    match fault {
        PutFault::Failed => LoadFault::Unread,
        PutFault::NoMemory => LoadFault::NoMemory,
    }
}

fn profile_of(alloc: Global, text: &[u8]) -> Result<Profile, LoadFault>
    ensures answer { IsAnswer text.now result }
    ensures read { result ≡ Err LoadFault.Unread → ⊥ }
{
    match read_profile(alloc, text) {
        Ok(profile) => Ok(profile),
        Err(ProfileError::Fault(fault)) => Err(LoadFault::Fault(fault)),
        Err(ProfileError::NoMemory) => Err(LoadFault::NoMemory),
    }
}
