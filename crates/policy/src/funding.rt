ghost use Rattle.std.specs.Prelude.{◌≤◌};

pub mod calls;

// Min-funding revocation with an idle tax (Waldspurger 2002): the guest that pays the fewest shares for each page, an idle page being charged more.
#[derive(Clone, Copy)]
pub struct MinFunding {
    // the tax in per cent
    tax: u32,
    ghost legal: { tax ≤ 99 },
}
