//! Numbers that stand for chance where the program makes its own work, as rounds of a script or inserts into a map.
//!
//! They are those of a linear congruential generator modulo 2^31, so the same number of rounds has the same work.

ghost use Rattle.std.specs.Prelude.{◌≡◌};
ghost use Rattle.gcsh_reports.specs.Seeds.{next_seed};

/// The seed of a round, by that of the round before; the first one's is by the number of rounds.
pub fn next_seed(seed: u32) -> u32
    ensures { result ≡ next_seed seed }
{
    ((u64::from(seed) * 1_103_515_245 + 12_345) % 2_147_483_648) as u32
}
