// The version of the layout for C, and the sizes of a rule and a record: docs/LAYOUT.md.
#![tactic(auto)]

ghost use Rattle.std.specs.Prelude.{◌≡◌};
ghost use Rattle.c_layout.specs.Sizes.{layout_bits};

// Version, rule size and record size, to be held against the header.
pub fn layout_answer() -> u32
    ensures { result ≡ layout_bits }
{
    layout::VERSION * 16777216 + layout::RULE_SIZE * 65536 + layout::RECORD_SIZE
}
