ghost use Rattle.std.specs.Prelude.{ℕ, ◌≡◌, ◌+◌, ◌-◌, ◌^◌, ◌<◌, length, min};
ghost use Rattle.lsvd_bytes.specs.Window.{Pastes};

/// Copies that part of a piece which a window shows. The window shows the bytes from `from` on, and the piece
/// is put among them at `at`.
pub fn paste(window: &mut [u8], from: u64, at: u64, piece: &[u8])
    requires { at + length piece.now < 2 ^ 64 }
    ensures { Pastes from at piece.now window.old window.new }
{
    let end_of_piece = at + piece.len() as u64;
    let start = (at.saturating_sub(from) as usize).min(window.len());
    let end = (end_of_piece.saturating_sub(from) as usize).min(window.len());
    if start < end {
        let skipped = from.saturating_sub(at) as usize;
        window[start..end].copy_from_slice(&piece[skipped..skipped + (end - start)]);
    }
}
