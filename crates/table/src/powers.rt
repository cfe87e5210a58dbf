// Powers of small numbers.
ghost use Rattle.std.specs.Prelude.{◌≡◌, ◌^◌, ◌≤◌, ◌&&◌, if◌then◌else◌, Some, None, nat_le};

// n to the power k stands at 5 * n + k, for n from 0 to 32 and k from 0 to 4. Written out: the project wants a table of these 165 numbers.
const POWERS: [u32; 165] = [
    1, 0, 0, 0, 0, 1, 1, 1, 1, 1, 1, 2, 4, 8, 16, 1, 3, 9, 27, 81, 1, 4, 16, 64, 256, 1, 5, 25,
    125, 625, 1, 6, 36, 216, 1296, 1, 7, 49, 343, 2401, 1, 8, 64, 512, 4096, 1, 9, 81, 729, 6561,
    1, 10, 100, 1000, 10000, 1, 11, 121, 1331, 14641, 1, 12, 144, 1728, 20736, 1, 13, 169, 2197,
    28561, 1, 14, 196, 2744, 38416, 1, 15, 225, 3375, 50625, 1, 16, 256, 4096, 65536, 1, 17, 289,
    4913, 83521, 1, 18, 324, 5832, 104976, 1, 19, 361, 6859, 130321, 1, 20, 400, 8000, 160000, 1,
    21, 441, 9261, 194481, 1, 22, 484, 10648, 234256, 1, 23, 529, 12167, 279841, 1, 24, 576, 13824,
    331776, 1, 25, 625, 15625, 390625, 1, 26, 676, 17576, 456976, 1, 27, 729, 19683, 531441, 1, 28,
    784, 21952, 614656, 1, 29, 841, 24389, 707281, 1, 30, 900, 27000, 810000, 1, 31, 961, 29791,
    923521, 1, 32, 1024, 32768, 1048576,
];

// n to the power k, for n up to 32 and k up to 4.
pub fn power(n: u32, k: u32) -> Option<u32>
    ensures { result ≡ (if nat_le n 32 && nat_le k 4 then Some (n ^ k) else None) }
{
    if n <= 32 && k <= 4 {
        Some(power_at(n, k))
    } else {
        None
    }
}

fn power_at(n: u32, k: u32) -> u32
    requires { (n ≤ 32) × (k ≤ 4) }
    ensures { result ≡ n ^ k }
{
    POWERS[(5 * n + k) as usize]
}
