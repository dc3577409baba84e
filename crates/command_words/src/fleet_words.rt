//! The folders of a fleet.
ghost use Rattle.std.specs.Prelude.{◌≡◌, ◌≤◌, ◌∷◌, false, is_some, map, string_bytes, vec_len};
ghost use Rattle.command_words.specs.Twice.{first_twice};

/// Mirrors in folders that are to be brought up to the master in another one at once, by so many workers. No folder is
/// named twice.
#[derive(Drop)]
pub struct Fleet {
    /// The folder of the master.
    pub master: String,
    /// The folders of the mirrors, from 1 to 4.
    pub mirrors: Vec<String>,
    /// The number of workers, from 1 to 64.
    pub workers: u16,
    pub ghost few: { vec_len mirrors ≤ 4 },
    pub ghost apart: { is_some (first_twice (string_bytes master ∷ map string_bytes mirrors.items)) ≡ false },
}
