// A municipality's list, once it is judged.
ghost use Rattle.std.specs.Prelude.{◌≡◌, MatchResult};
ghost use Rattle.refusal.specs.Numbers.{on_paper};
ghost use Rattle.municipality.specs.Municipality.{municipality};
ghost use Rattle.local.specs.Given.{Municipal};

use municipality::judge;
use refusal::Refusal;

#[derive(Clone, Copy)]
pub(crate) struct Municipality<'a> {
    pub(crate) sheets: &'a [u32],
    pub(crate) ghost judged: { Municipal sheets.now },
}

impl<'a> Municipality<'a> {
    pub(crate) fn of(sheets: &'a [u32]) -> Result<Municipality<'a>, Refusal>
        ensures { MatchResult result (λ m. m.sheets.now ≡ sheets.now) (λ why. on_paper {A = Unit} why ≡ municipality sheets.now) }
    {
        judge(sheets)?;
        Ok(Municipality { sheets })
    }
}
