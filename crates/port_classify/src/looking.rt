//! Reading a frame.
ghost use Rattle.std.specs.Prelude.{◌≡◌, IfOk};
ghost use Rattle.std.specs.Result.{result_ok};
ghost use Rattle.port_classify.specs.Frame.{frame_of, HasCodes};

use crate::carried::carried_in;
use crate::tags::tags_in;
use crate::{Frame, Unparsed};

/// What the first bytes of an Ethernet frame say: up to two tags, and the header of IPv4, IPv6 or MPLS behind
/// them. No checksum is tested, and nothing behind those headers is read.
///
/// `Unparsed`: the bytes end before the type behind the tags does, or what they carry has no header of its
/// protocol: too few bytes, another version, or an IPv4 header of fewer than five words.
pub fn look(bytes: &[u8]) -> Result<Frame, Unparsed>
    ensures value { result_ok result ≡ frame_of bytes.now }
    ensures codes { IfOk result HasCodes }
{
    let Some(tags) = tags_in(bytes) else {
        return Err(Unparsed);
    };
    let header = 14 + 4 * u32::from(tags.count);
    let Some(carried) = carried_in(tags.ethertype, &bytes[header as usize..]) else {
        return Err(Unparsed);
    };
    Ok(Frame {
        tags: tags.count,
        vlan: tags.vlan,
        inner: tags.inner,
        prio: tags.prio,
        proto: carried.proto,
        dscp: carried.dscp,
        src: carried.src,
        dst: carried.dst,
        mpls_tc: carried.mpls_tc,
        header,
    })
}
