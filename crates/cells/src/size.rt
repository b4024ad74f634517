// SIZE: the number of cells, and the length of Check.
ghost use Rattle.std.specs.Prelude.{◌≡◌};
ghost use Rattle.cells.specs.Size.{cells_fit};

// W, the length of Base, is 2..65,536, and Check has W elements. It takes two slices and no `Cells`: `packing` asks it of two of its four arrays before there are cells in them.
#[tactic(auto, using(std::proofs::lemmas::Bool::Decides::nat_tests), unfolding(crate::specs::Size::cells_fit))]
pub fn cells_fit(base: &[i32], check: &[i32]) -> bool
    ensures { result ≡ cells_fit base.now check.now }
{
    2 <= base.len() && (base.len() <= 65536 && check.len() == base.len())
}
