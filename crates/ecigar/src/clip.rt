// The clips of a segment: (n) for a side's soft clip, else [n] for its hard clip.
ghost use Rattle.std.specs.Prelude.{◌≡◌, ◌+◌, ◌*◌, ◌≤◌, length};
ghost use Rattle.writing.specs.Lay.{Laid};
ghost use Rattle.ecigar.specs.Table90.{print_all};
ghost use Rattle.ecigar.specs.Ecigar.{clip, clips_length};

use crate::check::count_len;
use crate::text::put_count;
use edits::Clips;
use writing::lay::put_byte;

// The characters of one side.
fn clip_len(soft: u32, hard: u32) -> u32
    ensures { (result ≡ length (print_all (clip soft hard))) × (result ≤ 12) }
{
    if soft != 0 {
        return count_len(soft) + 1;
    }
    if hard != 0 {
        return count_len(hard) + 1;
    }
    0
}

// The characters of both sides.
pub fn clips_len(clips: Clips) -> u32
    ensures { result ≡ clips_length clips }
{
    let left = clip_len(clips.left_soft as u32, clips.left_hard as u32);
    let right = clip_len(clips.right_soft as u32, clips.right_hard as u32);
    left + right
}

// One side, laid as digits.
pub fn put_clip(out: &mut [u8], at: usize, soft: u32, hard: u32) -> usize
    requires { at + 2 * length (print_all (clip soft hard)) ≤ length out.old }
    ensures { Laid out.old out.new at result (print_all (clip soft hard)) }
{
    if soft != 0 {
        let next = put_byte(out, at, b'(');
        return put_count(out, next, soft, b')');
    }
    if hard != 0 {
        let next = put_byte(out, at, b'[');
        return put_count(out, next, hard, b']');
    }
    at
}
