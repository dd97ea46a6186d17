// The orders of up to five things, by their number: the first order is that of the line, and later ones follow as words in a dictionary do.
ghost use Rattle.std.specs.Prelude.{◌≡◌, ◌<◌, ◌≤◌, take};
ghost use Rattle.orders.specs.Order.{order_of, orders_of};
ghost use Rattle.orders.specs.Picking.{free_from, is_in, picked_of, weight_of};

// Which of five are taken, by weights 1, 2, 4, 8, 16, what is left of the order's number, and the order so far.
#[derive(Clone, Copy)]
struct Picking {
    used: u8,
    rest: u64,
    order: [u8; 5],
}

// How many orders `n` things have; more than five are not put in order.
pub fn orders_of(n: usize) -> u64
    ensures { result ≡ orders_of n }
{
    match n {
        2 => 2,
        3 => 6,
        4 => 24,
        5 => 120,
        _ => 1,
    }
}

// The weight of a thing in the number of an order. By cases, as its definition is: a shift would have to be shown equal to it.
pub fn weight(k: u8) -> u8
    ensures { result ≡ weight_of k }
{
    match k {
        0 => 1,
        1 => 2,
        2 => 4,
        3 => 8,
        _ => 16,
    }
}

// Whether one of five is in a set of them.
pub fn is_in(set: u8, k: u8) -> bool
    ensures { result ≡ is_in set k }
{
    set & weight(k) != 0
}

// The `d`-th of those that are not taken.
fn free(used: u8, d: u64) -> u8
    ensures { result ≡ free_from used 0 d }
{
    let mut left = d;
    for k in 0..4 {
        if !is_in(used, k) {
            if left == 0 {
                return k;
            }
            left -= 1;
        }
    }
    4
}

// One more is taken, where `behind` follow it.
fn picked(p: Picking, j: usize, behind: usize) -> Picking
    ensures { result ≡ picked_of p j behind }
{
    let f = orders_of(behind);
    let k = free(p.used, p.rest / f);
    let mut order = p.order;
    if j < 5 {
        order[j] = k;
    }
    Picking {
        used: p.used | weight(k),
        rest: p.rest % f,
        order: order,
    }
}

// The order of `count` things that has the number `n`.
pub fn order_of(count: usize, n: u64) -> [u8; 5]
    ensures { count ≤ 5 → n < orders_of count → take count result ≡ order_of count n }
{
    let mut p = Picking {
        used: 0,
        rest: n,
        order: [0; 5],
    };
    for j in 0..count {
        p = picked(p, j, count - 1 - j);
    }
    p.order
}
