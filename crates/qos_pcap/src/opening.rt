//! Opening a capture.
ghost use Rattle.std.specs.Prelude.{◌≡◌, ◌≢◌, [], ℕ, List, IfOk, IfErr, IsErrOf};
ghost use Rattle.qos_io.specs.Fault.{Counts};
ghost use Rattle.qos_pcap.specs.Faults.{IsHeaderFault};
ghost use Rattle.qos_pcap.specs.First.{first_stamp};
ghost use Rattle.qos_pcap.specs.Format.{Record, header_of};
ghost use Rattle.qos_pcap.specs.Reads.{Reads};
ghost use Rattle.qos_pcap.specs.Given.{NextStamp, StillGives, IsStopped, form_of, given, limit_of, next_offset, source_of, untaken};

use crate::fields::form_in;
use crate::fill::fill;
use crate::{Capture, PcapFault, Stop};
use qos_io::Source;

/// Opens a capture: reads its header of 24 bytes (pcap-savefile) in either byte order, with microseconds or
/// nanoseconds and any minor version. At most `limit` records are read of it.
///
/// `CutHeader`, `BadMagic`, `BadVersion`, `BadLink`: it is no header, by the first of these that applies.
/// `Read`: the source failed. At a fault the source is dropped.
pub fn open_capture<S: Source>(mut src: S, limit: u32) -> Result<Capture<S>, PcapFault>
    ensures form { IfOk result (λ c. (bytes : List ℕ) → S.remaining src ≡ Some bytes → header_of bytes ≡ Ok (form_of c)) }
    ensures gives { IfOk result (λ c. (bytes : List ℕ) (records : List Record) (stop : Stop)
        → S.remaining src ≡ Some bytes → Reads bytes limit records stop → StillGives S.remaining c records stop) }
    ensures first { IfOk result (λ c. (bytes : List ℕ) → S.remaining src ≡ Some bytes → NextStamp S.remaining c (first_stamp bytes limit)) }

    ensures given { IfOk result (λ c. given c ≡ 0) }
    ensures limit { IfOk result (λ c. limit_of c ≡ limit) }
    ensures offset { IfOk result (λ c. next_offset c ≡ 24) }
    ensures untaken { IfOk result (λ c. untaken c ≡ None) }
    ensures goes_on { IfOk result (λ c. IsStopped c → ⊥) }

    ensures fault { IfErr result (λ fault. fault ≢ PcapFault.Read → (bytes : List ℕ) (records : List Record) (stop : Stop)
        → S.remaining src ≡ Some bytes → Reads bytes limit records stop → (records ≡ []) × (stop ≡ Stop.Fault fault)) }
    ensures header { IfErr result IsHeaderFault }
    ensures no_first { IfErr result (λ fault. fault ≢ PcapFault.Read → (bytes : List ℕ) → S.remaining src ≡ Some bytes → first_stamp bytes limit ≡ None) }

    ensures faults { IfOk result (λ c. Counts S.faults S.IsSure src (source_of c) ⊥) }
    ensures read { IsErrOf result PcapFault.Read → S.IsSure src → ⊥ }
{
    let mut bytes = [0u8; 24];
    let Ok(n) = fill(&mut src, &mut bytes) else {
        return Err(PcapFault::Read);
    };
    match form_in(&bytes[..n]) {
        Ok(form) => Ok(Capture::after_header(src, form, limit)),
        Err(fault) => Err(fault),
    }
}
