// Whether two runs of one stream came to the same, bit for bit.
use feeding::Feed;
use gathering::STOPPED;
use wire::bits_of;

// Stays: oracle_replay has it too: three lines, no plainer as a public function of a third crate.
pub(crate) fn floats_differ(a: &[f64], b: &[f64]) -> bool {
    a.iter().zip(b).any(|(x, y)| bits_of(*x) != bits_of(*y))
}

// The bytes that are held are compared where some are.
fn held_differ(a: &[u8; 97], b: &[u8; 97], kept: u32) -> bool {
    kept < STOPPED && a[..kept as usize] != b[..kept as usize]
}

// Whether two forms differ to whoever goes on with them.
// Stays: no equality derived for a form: it would compare the bytes left over behind those that are held, too, and they depend on the cuts.
pub(crate) fn forms_differ(a: Feed, b: Feed) -> bool {
    a.session != b.session || a.kept != b.kept || held_differ(&a.held, &b.held, a.kept)
}
