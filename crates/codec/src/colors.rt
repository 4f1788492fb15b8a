// A colour count and ids below it, as every record has them.
ghost use Rattle.std.specs.Prelude.{◌≡◌, ◌≤◌, ◌^◌, true, false, IfOk, IfErr};
ghost use Rattle.base.specs.declared.Refusal.TheVariants as refusal;
ghost use Rattle.codec.specs.Records.{bad_colors};
ghost use Rattle.codec.specs.Sets.{Within};
ghost use Rattle.codec.specs.Inside.Colors.{Within-prop, Turned};

use base::Refusal;

// A colour count inside its limits.
#[derive(Clone, Copy)]
pub(crate) struct Colors {
    pub(crate) n: u32,
    ghost some: { 1 ≤ n },
    ghost few: { n ≤ 2 ^ 20 },
}

impl Colors {
    pub(crate) fn new(n: u32) -> Result<Self, Refusal>
        ensures taken { IfOk result (λ c. (bad_colors n ≡ false) × (c.n ≡ n)) }
        ensures refused { IfErr result (λ r. (bad_colors n ≡ true) × (r ≡ refusal.Colors)) }
    {
        if crate::records::bad_colors(n) {
            return Err(Refusal::Colors);
        }
        Ok(Self { n })
    }
}

// Ids that ascend strictly, all below a colour count inside its limits.
#[derive(Clone, Copy)]
pub(crate) struct ColorSet<'a> {
    pub(crate) colors: Colors,
    pub(crate) ids: &'a [u32],
    ghost within: { Within 0 colors.n ids.now } by { Within-prop 0 colors.n ids.now },
}

impl<'a> ColorSet<'a> {
    // The colour count is tested before the ids.
    pub(crate) fn new(n: u32, ids: &'a [u32]) -> Result<Self, Refusal>
        ensures taken { IfOk result (λ s. (s.colors.n ≡ n) × (s.ids ≡ ids.entry)) }
        ensures refused { IfErr result (λ r. Turned n ids.now r) }
    {
        let colors = Colors::new(n)?;
        if !crate::sets::is_ascending(ids, colors.n) {
            return Err(Refusal::Ids);
        }
        Ok(Self { colors, ids })
    }
}
