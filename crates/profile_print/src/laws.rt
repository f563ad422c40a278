//! What the definitions say together. A law is a function without parameters whose contract holds; there is
//! nothing to call it for.
ghost use Rattle.std.specs.Prelude.{◌≡◌, map};
ghost use Rattle.std.specs.List.{flat_map};
ghost use Rattle.std.specs.Str.Lines.{lines};
ghost use Rattle.profile_lines.specs.Lines.{line_of};
ghost use Rattle.profile_plan.specs.Profile.{Plan};
ghost use Rattle.profile_print.specs.Text.{text_of, blocks_of};
ghost use Rattle.profile_print.specs.Plain.{HasWords, block_lines};

/// The lines of a profile's text are read as the very words that they were written from.
pub fn lines_are_read_back()
    ensures { (p : Plan) → HasWords p → map line_of (lines (text_of p)) ≡ flat_map block_lines (blocks_of p) }
{}
