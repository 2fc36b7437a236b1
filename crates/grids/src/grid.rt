// A grid whose size is accepted.
ghost use Rattle.grids.specs.Sized.{Sized};
ghost use Rattle.grids.specs.OneProof.{sized_prop};

// Its colour bytes row by row, as many as its width and its height say.
#[derive(Clone, Copy)]
pub struct Grid<'a> {
    pub width: usize,
    pub height: usize,
    pub cells: &'a [u8],
    pub ghost sized: { Sized width height cells.now } by { sized_prop width height cells.now },
}
