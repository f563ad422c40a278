//! What is done with the sections of a text.
ghost use Rattle.std.specs.Prelude.{◌≡◌};
ghost use Rattle.qos_profile.specs.Sections.{same_head};
ghost use Rattle.qos_profile.specs.Lookups.{is_there};

use crate::head::Head;
use crate::section::Section;

/// Whether two heads are the same. Each section `[red]` is its own.
pub(crate) fn same_head(a: &Head, b: &Head) -> bool
    ensures { result ≡ same_head a.now b.now }
{
    match a {
        Head::Pool => matches!(b, Head::Pool),
        Head::Port(n) => matches!(b, Head::Port(m) if n == m),
        Head::SubportKind(n) => matches!(b, Head::SubportKind(m) if n == m),
        Head::PipeKind(n) => matches!(b, Head::PipeKind(m) if n == m),
        Head::Subport(n, k) => matches!(b, Head::Subport(m, l) if n == m && k == l),
        Head::Codes => matches!(b, Head::Codes),
        Head::Meter(x) => matches!(b, Head::Meter(y) if x.length == y.length && x.bytes == y.bytes),
        Head::Rule(n) => matches!(b, Head::Rule(m) if n == m),
        Head::Red => false,
    }
}

/// Whether a section of this head is there.
pub(crate) fn is_there(sections: &[Section], head: &Head) -> bool
    ensures { result ≡ is_there sections.now head.now }
{
    sections
        .iter()
        .any(|section| same_head(&section.head, head))
}
