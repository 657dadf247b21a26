// Parts of columns, as many slots as asked for or as there are.
ghost use Rattle.std.specs.Prelude.{◌≡◌, ◌-◌, ◌<◌, ◌≤◌, length, take, drop, min, slice_index_or};

// The first slots of a column, as many as asked for or as there are.
pub fn front<T>(column: &[T], n: usize) -> &[T]
    ensures { result.now ≡ take n column.now }
{
    let end = n.min(column.len());
    &column[..end]
}

// The slots of lent memory from a place on, as many as asked for or as there are.
pub fn part_mut<T>(memory: &mut [T], from: usize, n: usize) -> &mut [T]
    ensures size { length result.now ≡ min n (length memory.old - from) }
    ensures slots { result.now ≡ take n (drop from memory.old) }
{
    let start = from.min(memory.len());
    let end = start + n.min(memory.len() - start);
    &mut memory[start..end]
}

// What stands at a place of a column, the type's default past the end: zeros, where there are numbers.
pub fn at<T: Copy + Default + Drop>(column: &[T], i: usize) -> T
    ensures within { i < length column.now → result ≡ slice_index_or column.now i result }
    ensures past { length column.now ≤ i → T.is_default result }
{
    column.get(i).copied().unwrap_or_default()
}
