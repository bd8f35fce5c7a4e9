// What a run only reads of its tasks.

// Each task's C and T, in table order, and the tasks in priority order.
// C and T lie apart: a list of tasks made a slot's walks a fifth slower at 16 and at 64 tasks.
#[derive(Clone, Copy)]
pub struct Columns<'a> {
    pub c: &'a [u32],
    pub t: &'a [u32],
    pub ranks: &'a [u8],
}
