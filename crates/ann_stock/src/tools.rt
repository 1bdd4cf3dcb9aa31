// Where the vault and the eyes of the workers are.
use ann_merge::Job;
use ann_vault::{Eye, Vault};

/// The vault and the eyes of the workers, at hand or with a job.
#[derive(Drop)]
pub(crate) enum Tools<V: Vault, E: Eye<Seal = V::Seal>> {
    /// At hand.
    Held { vault: V, eyes: Vec<E> },
    /// In a job that was given back.
    Back(Job<V, E>),
    /// Out with a job.
    Away,
}

/// The vault and the eyes of the workers.
#[derive(Drop)]
pub struct StockParts<V: Vault, E: Drop> {
    /// The vault.
    pub vault: V,
    /// The eyes, in the order in which they were given.
    pub eyes: Vec<E>,
}
