// An object that nests deep.
use language::CELL_TABLE_SIZE;

// Writes cell i: a sequence of one place, whose first cell is numbered one less than link; and then the place that next leads to.
fn put(c: &mut [u32; CELL_TABLE_SIZE], i: u32, next: u32, link: u32) {
    tables::put_record(c, i as usize, language::SEQUENCE, next, link, 1);
}

// Cells that hold a number within 3,500 sequences of one place each, and behind them the pair of that object and itself.
pub fn deep_pair() -> [u32; CELL_TABLE_SIZE] {
    let mut c = [0; CELL_TABLE_SIZE];
    for k in 0..3499 {
        put(&mut c, k, 0, k + 2);
    }
    put(&mut c, 3500, 3502, 1);
    put(&mut c, 3501, 0, 1);
    c
}
