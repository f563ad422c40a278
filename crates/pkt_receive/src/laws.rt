//! Laws of the marks. A law is a function without parameters whose contract holds; there is nothing to call it for.
ghost use Rattle.pkt_receive.specs.Laws.{LogsAgree, MarksAgree};

/// The marks of an input's records have the colours that are found by meter, input and index.
pub fn marks_agree()
    ensures { MarksAgree }
{}

/// So they have in the logs of their meters.
pub fn logs_agree()
    ensures { LogsAgree }
{}
