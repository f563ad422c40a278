//! What the definitions say together. A law is a function without parameters whose contract holds; there is
//! nothing to call it for.
ghost use Rattle.std.specs.Prelude.{◌≡◌, ℕ, ◌≤◌, List, [], length, None, true};
ghost use Rattle.qos_profile.specs.declared.limits.TheConstants.{MAX_TEXT};
ghost use Rattle.profile_lines.specs.Lines.{Line};
ghost use Rattle.qos_profile.specs.declared.fact.Fact.{Fact};
ghost use Rattle.qos_profile.specs.declared.head.Head.{Head};
ghost use Rattle.qos_profile.specs.Facts.{keys_of};
ghost use Rattle.profile_plan.specs.Profile.{Plan, KeepsLimits};
ghost use Rattle.profile_print.specs.Text.{text_of};
ghost use Rattle.qos_profile.specs.Forms.{KeepsForms};
ghost use Rattle.qos_profile.specs.Sections.{first_fault, sections_of};
ghost use Rattle.qos_profile.specs.Faults.{fault_of_sections, fault_of_text};
ghost use Rattle.qos_profile.specs.OneAnswer.{HasOneAnswer};
ghost use Rattle.qos_profile.specs.Planned.{plan_of, profile_of};
ghost use Rattle.qos_profile.specs.Kept.{AreGiven, IsGiven, IsNumberIn, is_number_group};

/// Each fact of each section of some lines is given by a line of that section.
pub fn facts_are_given()
    ensures { (lines : List Line) → AreGiven (sections_of 1 lines) }
{}

/// Where the keys of a group are numbers in one range, each fact of that group is a number in it.
pub fn numbers_keep_their_ranges()
    ensures { (head : Head) (group least most : ℕ) (fact : Fact) → is_number_group group least most (keys_of head) ≡ true → IsGiven head fact → fact.group ≡ group → IsNumberIn least most fact.value }
{}

/// Every text has exactly one answer: a profile that the definition names, or its first fault.
pub fn texts_have_one_answer()
    ensures { (text : List ℕ) → HasOneAnswer text }
{}

/// The sections of lines that have no fault, neither of a line nor of the whole, say a profile within all limits.
pub fn plans_keep_their_limits()
    ensures { (lines : List Line) → first_fault [] lines ≡ None → fault_of_sections (sections_of 1 lines) ≡ None → KeepsLimits (plan_of (sections_of 1 lines)) }
{}

/// A profile's text, where it is not too long, has no fault, and it says the profile, with nothing skipped.
pub fn texts_are_read_back()
    ensures fault { (p : Plan) → KeepsLimits p → KeepsForms p → length (text_of p) ≤ MAX_TEXT → fault_of_text (text_of p) ≡ None }
    ensures profile { (p : Plan) → KeepsLimits p → KeepsForms p → profile_of (text_of p) ≡ record p { skipped = [] } }
{
    profile_print::laws::lines_are_read_back();
}
