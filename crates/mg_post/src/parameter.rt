//! The parameter of a list's gaps.
ghost use Rattle.std.specs.Prelude.{◌≡◌, ◌≤◌, ◌<◌, ◌^◌};
ghost use Rattle.mg_defs.specs.Codes.{golomb_parameter};

/// The parameter of the Golomb code of a list's gaps.
#[derive(Clone, Copy)]
pub struct Parameter {
    pub value: u64,
    ghost some: { 1 ≤ value },
    ghost small: { value < 2 ^ 48 },
}

/// The parameter of the gaps of a list of so many documents among all.
pub fn parameter_of(all: u32, docs: u32) -> Parameter
    requires { 1 ≤ docs }
    ensures { result.value ≡ golomb_parameter all docs }
{
    Parameter {
        value: (69 * u64::from(all) / (100 * u64::from(docs))).max(1),
    }
}

/// The parameter of a list of so many postings; any for a list of none.
pub fn parameter_for(all: u32, docs: u32) -> Parameter
    ensures { 1 ≤ docs → result.value ≡ golomb_parameter all docs }
{
    if docs == 0 {
        return Parameter { value: 1 };
    }
    parameter_of(all, docs)
}
