// The shipped words: 28 names and 42 aliases, 68 different words, each leading to a command by its number in default_cmds' order.
// A word is looked up by its length and by two numbers, which its first eight bytes and the rest make. The words of a length are a `match` on
// numbers, which is compiled to comparisons that halve them; a table of words would be searched.
ghost use Rattle.std.specs.Prelude.{◌≡◌, cond, ◌+◌, ◌≤◌, eqb, length, Some, None};
ghost use Rattle.scan.specs.Number.{number_at};
ghost use Rattle.words.specs.Words.{lookup as lookup_of};
ghost use Rattle.words.specs.Keys.{keyed};

use scan::number::eight;

// The number of the `N` bytes from `i` on: of several the first counts highest.
fn number<const N: usize>(w: &[u8], i: usize) -> u64
    requires few { N ≤ 7 }
    requires inside { i + N ≤ length w.now }
    ensures { result ≡ number_at 0 w.now i N }
{
    let mut n: u64 = 0;
    for k in 0..N {
        n = n * 256 + w[i + k] as u64;
    }
    n
}

// The words of 1 byte.
fn word1(f: u64) -> Option<u64>
    ensures { result ≡ keyed 1 f 0 }
{
    match f {
        // ~
        0x7E => Some(1),
        // r
        0x72 => Some(2),
        // p
        0x70 => Some(3),
        // s
        0x73 => Some(4),
        // q
        0x71 => Some(7),
        // w
        0x77 => Some(22),
        // !
        0x21 => Some(0),
        // &
        0x26 => Some(1),
        _ => None,
    }
}

// The words of 2 bytes.
fn word2(f: u64) -> Option<u64>
    ensures { result ≡ keyed 2 f 0 }
{
    match f {
        // &&
        0x2626 => Some(1),
        // ~&
        0x7E26 => Some(1),
        // on
        0x6F6E => Some(6),
        // qa
        0x7161 => Some(8),
        // sp
        0x7370 => Some(10),
        // vs
        0x7673 => Some(11),
        // wa
        0x7761 => Some(23),
        _ => None,
    }
}

// The words of 3 bytes.
fn word3(f: u64) -> Option<u64>
    ensures { result ≡ keyed 3 f 0 }
{
    match f {
        // clo
        0x636C6F => Some(5),
        // res
        0x726573 => Some(9),
        // vsp
        0x767370 => Some(11),
        // vie
        0x766965 => Some(12),
        // hor
        0x686F72 => Some(24),
        // abo
        0x61626F => Some(26),
        // bel
        0x62656C => Some(27),
        // tab
        0x746162 => Some(13),
        _ => None,
    }
}

// The words of 4 bytes.
fn word4(f: u64) -> Option<u64>
    ensures { result ≡ keyed 4 f 0 }
{
    match f {
        // only
        0x6F6E6C79 => Some(6),
        // qall
        0x71616C6C => Some(8),
        // tabc
        0x74616263 => Some(14),
        // tabe
        0x74616265 => Some(15),
        // tabm
        0x7461626D => Some(16),
        // tabn
        0x7461626E => Some(17),
        // tabo
        0x7461626F => Some(18),
        // tabp
        0x74616270 => Some(19),
        // tabN
        0x7461624E => Some(19),
        // tabr
        0x74616272 => Some(20),
        // tabl
        0x7461626C => Some(21),
        // vert
        0x76657274 => Some(25),
        // read
        0x72656164 => Some(2),
        // quit
        0x71756974 => Some(7),
        // view
        0x76696577 => Some(12),
        // wall
        0x77616C6C => Some(23),
        _ => None,
    }
}

// The words of 5 bytes.
fn word5(f: u64) -> Option<u64>
    ensures { result ≡ keyed 5 f 0 }
{
    match f {
        // close
        0x636C6F7365 => Some(5),
        // quita
        0x7175697461 => Some(8),
        // lefta
        0x6C65667461 => Some(26),
        // print
        0x7072696E74 => Some(3),
        // split
        0x73706C6974 => Some(10),
        // write
        0x7772697465 => Some(22),
        _ => None,
    }
}

// The words of 6 bytes.
fn word6(f: u64) -> Option<u64>
    ensures { result ≡ keyed 6 f 0 }
{
    match f {
        // tabnew
        0x7461626E6577 => Some(15),
        // tabfir
        0x746162666972 => Some(20),
        // rightb
        0x726967687462 => Some(27),
        // resize
        0x726573697A65 => Some(9),
        // vsplit
        0x7673706C6974 => Some(11),
        _ => None,
    }
}

// The words of 7 bytes.
fn word7(f: u64) -> Option<u64>
    ensures { result ≡ keyed 7 f 0 }
{
    match f {
        // tabNext
        0x7461624E657874 => Some(19),
        // quitall
        0x71756974616C6C => Some(8),
        // tabedit
        0x74616265646974 => Some(15),
        // tabmove
        0x7461626D6F7665 => Some(16),
        // tabnext
        0x7461626E657874 => Some(17),
        // tabonly
        0x7461626F6E6C79 => Some(18),
        // tablast
        0x7461626C617374 => Some(21),
        _ => None,
    }
}

// The words of 8 bytes.
fn word8(f: u64) -> Option<u64>
    ensures { result ≡ keyed 8 f 0 }
{
    match f {
        // tabclose
        0x746162636C6F7365 => Some(14),
        // tabfirst
        0x7461626669727374 => Some(20),
        // vertical
        0x766572746963616C => Some(25),
        _ => None,
    }
}

// A word whose first eight bytes are known, by the rest.
fn ended(b: u64, rest: u64, command: u64) -> Option<u64>
    ensures { result ≡ cond (eqb b rest) (Some command) None }
{
    if b == rest {
        return Some(command);
    }
    None
}

// The words of 9 bytes.
fn word9(f: u64, b: u64) -> Option<u64>
    ensures { result ≡ keyed 9 f b }
{
    match f {
        // tabrewin, d
        0x746162726577696E => ended(b, 0x64, 20),
        // leftabov, e
        0x6C65667461626F76 => ended(b, 0x65, 26),
        // abovelef, t
        0x61626F76656C6566 => ended(b, 0x74, 26),
        _ => None,
    }
}

// The words of 10 bytes.
fn word10(f: u64, b: u64) -> Option<u64>
    ensures { result ≡ keyed 10 f b }
{
    match f {
        // rightbel, ow
        0x726967687462656C => ended(b, 0x6F77, 27),
        // substitu, te
        0x7375627374697475 => ended(b, 0x7465, 4),
        // horizont, al
        0x686F72697A6F6E74 => ended(b, 0x616C, 24),
        // belowrig, ht
        0x62656C6F77726967 => ended(b, 0x6874, 27),
        _ => None,
    }
}

// The words of 11 bytes.
fn word11(f: u64, b: u64) -> Option<u64>
    ensures { result ≡ keyed 11 f b }
{
    match f {
        // tabprevi, ous
        0x7461627072657669 => ended(b, 0x6F7573, 19),
        _ => None,
    }
}

// What a word leads to with the words as shipped.
pub fn lookup(w: &[u8]) -> Option<u64>
    ensures { result ≡ lookup_of w.now }
{
    match w.len() {
        1 => word1(number::<1>(w, 0)),
        2 => word2(number::<2>(w, 0)),
        3 => word3(number::<3>(w, 0)),
        4 => word4(number::<4>(w, 0)),
        5 => word5(number::<5>(w, 0)),
        6 => word6(number::<6>(w, 0)),
        7 => word7(number::<7>(w, 0)),
        8 => word8(eight(w, 0)),
        9 => word9(eight(w, 0), number::<1>(w, 8)),
        10 => word10(eight(w, 0), number::<2>(w, 8)),
        11 => word11(eight(w, 0), number::<3>(w, 8)),
        _ => None,
    }
}
