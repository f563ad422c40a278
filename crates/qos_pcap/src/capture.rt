//! A capture that is being read, one record at a time.
ghost use Rattle.std.specs.Prelude.{◌≤◌, ◌+◌, ◌*◌};
ghost use Rattle.qos_pcap.specs.declared.limits.TheConstants.{MAX_CAP};

use crate::fields::head_in;
use crate::fill::{fill, skip};
use crate::form::Form;
use crate::{Head, MAX_CAP, PcapFault, Stop};
use qos_io::{Failed, Source};

/// Where a capture stands.
#[derive(Clone, Copy)]
enum Place {
    /// A record begins here, or the capture ends.
    Record,
    /// The body of this head begins here.
    Body(Head),
    /// It has ended, or has come to a fault.
    Stopped,
}

/// A capture that is open. It gives the records of its source in their order, each as a head and then a
/// body, and stops for good at its end or at the first fault.
#[derive(Drop)]
pub struct Capture<S: Source> {
    source: S,
    form: Form,
    limit: u32,
    given: u32,
    offset: u64,
    place: Place,
    ghost unit: { form.unit ≤ 1000 },
    ghost counted: { given ≤ limit },
    ghost reached: { offset ≤ 24 + (MAX_CAP + 16) * given },
}

impl<S: Source> Capture<S> {
    ghost use Rattle.std.specs.Prelude.{◌≡◌, ◌≢◌, ◌≤◌, ◌<◌, ◌∷◌, [], ℕ, List, Option, length, option_map, IsSome, IsErr, IsOkAnd, IfOk, IfErr, IfSome, IfNone, OnOk, OnErr, IsErrOf};
    ghost use Rattle.qos_io.specs.Fault.{Counts};
    ghost use Rattle.qos_pcap.specs.Faults.{IsRecordFault};
    ghost use Rattle.qos_pcap.specs.First.{AnswersStamp};
    ghost use Rattle.qos_pcap.specs.Format.{Record};
    ghost use Rattle.qos_pcap.specs.Heads.{IsHeadIn, recorded};
    ghost use Rattle.qos_pcap.specs.Given.{StillGives, NextStamp, HasGiven, HasPassedBody, HasStopped, ChangesPlace, IsStopped, form_of, given, limit_of, next_offset, source_of, untaken};

    /// A capture whose header has been read from the source.
    pub(crate) fn after_header(source: S, form: Form, limit: u32) -> Self
        requires { form.unit ≤ 1000 }
        ensures source { source_of result ≡ source }
        ensures form { form_of result ≡ form }
        ensures limit { limit_of result ≡ limit }
        ensures given { given result ≡ 0 }
        ensures offset { next_offset result ≡ 24 }
        ensures place { result.place ≡ Place.Record }
    {
        Capture {
            source,
            form,
            limit,
            given: 0,
            offset: 24,
            place: Place::Record,
        }
    }

    /// The next record's head, or `None` at the end of the input. After the end and after a fault it
    /// answers `None`, and reads nothing.
    ///
    /// `TooMany`: the limit of records is reached, and bytes are left. `CutRecord`: fewer than 16 bytes are
    /// left here. `HugeRecord`: the captured length is above `MAX_CAP`. `Read`: the source failed. Whether the
    /// body is there is not looked at.
    #[inline(always)]
    pub fn next_head(&mut self) -> Result<Option<Head>, PcapFault>
        requires { untaken self.old ≡ None }

        ensures stopped { IsStopped self.old → (result ≡ Ok None) × (source_of self.new ≡ source_of self.old) }

        ensures head { IfOk result (λ r. IfSome r (HasGiven self.old self.new)) }
        ensures numbers { IfOk result (λ r. IfSome r (λ head. (bytes : List ℕ) → S.remaining (source_of self.old) ≡ Some bytes → (16 ≤ length bytes) × IsHeadIn (form_of self.old) bytes head)) }
        ensures keeps { IfOk result (λ r. IfSome r (λ head. (records : List Record) (stop : Stop)
            → StillGives S.remaining self.old records stop → StillGives S.remaining self.new records stop)) }

        ensures end_stops { IfOk result (λ r. IfNone r (HasStopped self.old self.new)) }
        ensures end { IfOk result (λ r. IfNone r ((records : List Record) (stop : Stop)
            → StillGives S.remaining self.old records stop → (records ≡ []) × (stop ≡ Stop.End))) }

        ensures fault_stops { OnErr result (HasStopped self.old self.new) }
        ensures fault { IfErr result (λ fault. fault ≢ PcapFault.Read → (records : List Record) (stop : Stop)
            → StillGives S.remaining self.old records stop → (records ≡ []) × (stop ≡ Stop.Fault fault)) }
        ensures place { IfErr result (IsRecordFault (next_offset self.old)) }

        // Within the limit every head that is there is given, also where its body is cut.
        ensures stamp { (stamp : Option ℕ) → NextStamp S.remaining self.old stamp → AnswersStamp stamp result }

        ensures form { form_of self.new ≡ form_of self.old }
        ensures limit { limit_of self.new ≡ limit_of self.old }
        ensures faults { Counts S.faults S.IsSure (source_of self.old) (source_of self.new) (IsErrOf result PcapFault.Read) }
    {
        if let Place::Stopped = self.place {
            return Ok(None);
        }
        let mut bytes = [0u8; 16];
        let Ok(n) = fill(&mut self.source, &mut bytes) else {
            self.place = Place::Stopped;
            return Err(PcapFault::Read);
        };
        if n == 0 {
            self.place = Place::Stopped;
            return Ok(None);
        }
        if self.given == self.limit {
            self.place = Place::Stopped;
            return Err(PcapFault::TooMany(self.offset));
        }
        if n < 16 {
            self.place = Place::Stopped;
            return Err(PcapFault::CutRecord(self.offset));
        }
        let head = head_in(self.form, &bytes, self.given, self.offset);
        if head.cap > MAX_CAP {
            self.place = Place::Stopped;
            return Err(PcapFault::HugeRecord(self.offset, head.cap));
        }
        self.given += 1;
        self.offset += 16 + u64::from(head.cap);
        self.place = Place::Body(head);
        Ok(Some(head))
    }

    /// Moves the body of the last head into a buffer of exactly its captured length.
    ///
    /// `CutRecord`: the input ends before the body does. `Read`: the source failed.
    pub fn body_into(&mut self, buf: &mut [u8]) -> Result<(), PcapFault>
        requires { option_map (λ head. head.cap) (untaken self.old) ≡ Some (length buf.old) }

        ensures taken { OnOk result (HasPassedBody self.old self.new) }
        ensures body { OnOk result ((head : Head) (records : List Record) (stop : Stop) → untaken self.old ≡ Some head
            → StillGives S.remaining self.old records stop
            → (rest : List Record) × (records ≡ recorded head buf.new ∷ rest) × StillGives S.remaining self.new rest stop) }

        ensures fault_stops { OnErr result (HasStopped self.old self.new) }
        ensures fault { IfErr result (λ fault. fault ≢ PcapFault.Read → (records : List Record) (stop : Stop)
            → StillGives S.remaining self.old records stop → (records ≡ []) × (stop ≡ Stop.Fault fault)) }
        ensures cut { IfErr result (λ fault. fault ≢ PcapFault.Read → (head : Head) → untaken self.old ≡ Some head → fault ≡ PcapFault.CutRecord head.offset) }

        ensures form { form_of self.new ≡ form_of self.old }
        ensures limit { limit_of self.new ≡ limit_of self.old }
        ensures faults { Counts S.faults S.IsSure (source_of self.old) (source_of self.new) (IsErrOf result PcapFault.Read) }
    {
        let Place::Body(head) = self.place else {
            unreachable!()
        };
        let moved = fill(&mut self.source, buf);
        self.pass_body(moved, head)
    }

    /// Passes over the body of the last head.
    ///
    /// `CutRecord`: the input ends before the body does. `Read`: the source failed.
    pub fn skip_body(&mut self) -> Result<(), PcapFault>
        requires { IsSome (untaken self.old) }

        ensures passed { OnOk result (HasPassedBody self.old self.new) }
        ensures body { OnOk result ((head : Head) (records : List Record) (stop : Stop) → untaken self.old ≡ Some head
            → StillGives S.remaining self.old records stop
            → (body : List ℕ) × (rest : List Record) × (records ≡ recorded head body ∷ rest) × StillGives S.remaining self.new rest stop) }

        ensures fault_stops { OnErr result (HasStopped self.old self.new) }
        ensures fault { IfErr result (λ fault. fault ≢ PcapFault.Read → (records : List Record) (stop : Stop)
            → StillGives S.remaining self.old records stop → (records ≡ []) × (stop ≡ Stop.Fault fault)) }
        ensures cut { IfErr result (λ fault. fault ≢ PcapFault.Read → (head : Head) → untaken self.old ≡ Some head → fault ≡ PcapFault.CutRecord head.offset) }

        ensures form { form_of self.new ≡ form_of self.old }
        ensures limit { limit_of self.new ≡ limit_of self.old }
        ensures faults { Counts S.faults S.IsSure (source_of self.old) (source_of self.new) (IsErrOf result PcapFault.Read) }
    {
        let Place::Body(head) = self.place else {
            unreachable!()
        };
        let moved = skip(&mut self.source, head.cap as usize);
        self.pass_body(moved, head)
    }

    /// Goes on behind the body of this head, or stops where not all of it was moved.
    fn pass_body(&mut self, moved: Result<usize, Failed>, head: Head) -> Result<(), PcapFault>
        ensures passed { OnOk result ((moved ≡ Ok head.cap) × ChangesPlace self.old self.new Place.Record) }
        ensures fault_stops { OnErr result (ChangesPlace self.old self.new Place.Stopped) }
        ensures cut { IfErr result (λ fault. fault ≢ PcapFault.Read → IsOkAnd moved (λ n. n ≢ head.cap) × (fault ≡ PcapFault.CutRecord head.offset)) }
        ensures read { IsErrOf result PcapFault.Read → IsErr moved }
    {
        match moved {
            Ok(n) if n == head.cap as usize => {
                self.place = Place::Record;
                Ok(())
            }
            Ok(_) => {
                self.place = Place::Stopped;
                Err(PcapFault::CutRecord(head.offset))
            }
            Err(Failed) => {
                self.place = Place::Stopped;
                Err(PcapFault::Read)
            }
        }
    }
}
