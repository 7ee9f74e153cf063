//! A board: a table over a lent slice of any elements, addressed by row and item.
ghost use Rattle.std.specs.Prelude.{◌≡◌, ◌+◌, ◌*◌, ◌<◌, ◌≤◌, length, slice_index_or, slice_set};
ghost use Rattle.board.specs.Tables.{written};

// Writes v over the first `count` elements. The slice's own `fill` wants a clone that cannot fail, which a `Copy` element does not promise.
fn fill_front<T: Copy>(cells: &mut [T], count: usize, v: T)
    requires { count ≤ length cells.old }
    ensures { cells.new ≡ written count (λ _. v) cells.old }
{
    for cell in &mut cells[..count] {
        *cell = v;
    }
}

// A table over lent elements, with a row of `width` items for each of `rows`. Elements past the last row are surplus.
#[derive(Drop)]
pub struct Grid<'a, T> {
    pub cells: &'a mut [T],
    pub rows: usize,
    pub width: usize,
}

impl<'a, T: Copy> Grid<'a, T> {
    // The table over these elements.
    pub fn new(cells: &'a mut [T], rows: usize, width: usize) -> Grid<'a, T>
        ensures value { (result.cells.now ≡ cells.old) × ((result.rows ≡ rows) × (result.width ≡ width)) }
        ensures named { result.cells.ghost_name ≡ cells.entry.ghost_name }
    {
        Grid { cells, rows, width }
    }

    // The place of a row and an item.
    fn place(&self, row: usize, item: usize) -> usize
        requires within { (row < self.now.rows) × (item < self.now.width) }
        requires fits { self.now.rows * self.now.width ≤ length self.now.cells.now }
        ensures is { result ≡ row * self.now.width + item }
        ensures within { result < length self.now.cells.now }
    {
        row * self.width + item
    }

    // The element of a row and an item.
    pub fn get(&self, row: usize, item: usize) -> T
        requires within { (row < self.now.rows) × (item < self.now.width) }
        requires fits { self.now.rows * self.now.width ≤ length self.now.cells.now }
        ensures { (d : T) → result ≡ slice_index_or self.now.cells.now (row * self.now.width + item) d }
    {
        let cells = &*self.cells;
        cells[self.place(row, item)]
    }

    // Writes the element of a row and an item.
    pub fn put(&mut self, row: usize, item: usize, v: T)
        requires within { (row < self.old.rows) × (item < self.old.width) }
        requires fits { self.old.rows * self.old.width ≤ length self.old.cells.now }
        ensures cells { self.new.cells.now ≡ slice_set self.old.cells.now (row * self.old.width + item) v }
        ensures rows { self.new.rows ≡ self.old.rows }
        ensures width { self.new.width ≡ self.old.width }
        ensures named { self.new.cells.ghost_name ≡ self.old.cells.ghost_name }
    {
        let i = self.place(row, item);
        self.cells[i] = v;
    }

    // Writes v over every row.
    pub fn fill(&mut self, v: T)
        requires { self.old.rows * self.old.width ≤ length self.old.cells.now }
        ensures cells { self.new.cells.now ≡ written (self.old.rows * self.old.width) (λ _. v) self.old.cells.now }
        ensures named { self.new.cells.ghost_name ≡ self.old.cells.ghost_name }
    {
        let count = self.rows * self.width;
        fill_front(self.cells, count, v);
    }
}
