// What the garbler keeps to itself.

#[derive(Clone, Copy)]
pub struct Secrets<L> {
    pub seed: L,
    pub offset: L,
}
