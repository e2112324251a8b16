// What the rule of one table goes by.
ghost use Rattle.std.specs.Prelude.{◌≤◌};

use list_tables::shape::TABLES;

// One table of the four, the first free choice, and what each slot lacks and wants.
#[derive(Clone, Copy)]
pub(crate) struct OneTable<'a> {
    pub tables: &'a [u16; TABLES],
    pub table: usize,
    pub from: usize,
    pub lacks: &'a [usize; 24],
    pub wants: &'a [usize; 24],
}

// What the slots need together in a table, what the free choices weigh together, and the heaviest of them.
#[derive(Clone, Copy)]
pub(crate) struct Weighed {
    pub need: usize,
    pub spare: usize,
    pub heaviest: usize,
    ghost in_range: { (need ≤ 1572840) × (spare ≤ 4194240) × (heaviest ≤ 65535) },
}
