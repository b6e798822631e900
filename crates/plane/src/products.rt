ghost use Rattle.std.specs.Prelude.{◌≡◌, ◌+◌, ◌*◌, ◌<◌, ◌≤◌, ◌+ℤ◌, ◌-ℤ◌, ◌*ℤ◌, if◌then◌else◌, unsigned_abs};
ghost use Rattle.plane.specs.Directed.{Makes};
ghost use Rattle.plane.specs.Plane.{vector, dot, cross, perp, normal};
ghost use Rattle.plane.specs.Support.{beyond};

use crate::direction::Direction;
use crate::fault::Fault;
use crate::point::Point;

// a·b, of two numbers of 32 bits.
fn times(a: i32, b: i32) -> i64
    ensures { result ≡ a *ℤ b }
{
    i64::from(a) * i64::from(b)
}

// a·b + c·d, where a and c are a direction's components: with others the sum could pass 64 bits, unlike a difference.
fn products_sum(a: i32, b: i32, c: i32, d: i32) -> i64
    requires first { unsigned_abs a ≤ 2000000 }
    requires second { unsigned_abs c ≤ 2000000 }
    ensures { result ≡ a *ℤ b +ℤ c *ℤ d }
{
    times(a, b) + times(c, d)
}

// a·b - c·d; no four numbers of 32 bits take it beyond 64.
fn products_difference(a: i32, b: i32, c: i32, d: i32) -> i64
    ensures { result ≡ a *ℤ b -ℤ c *ℤ d }
{
    times(a, b) - times(c, d)
}

// cross(p, q).
pub fn cross(p: Point, q: Point) -> i64
    ensures { result ≡ cross p q }
{
    products_difference(p.x, q.y, p.y, q.x)
}

impl Direction {
    // u·p.
    pub fn dot(self, p: Point) -> i64
        ensures { result ≡ dot (vector self) p }
    {
        products_sum(self.x, p.x, self.y, p.y)
    }

    // Whether q lies farther this way than p or, where it lies as far, farther to the left.
    pub fn beyond(self, p: Point, q: Point) -> bool
        ensures { result ≡ beyond (vector self) p q }
    {
        let here = self.dot(p);
        let there = self.dot(q);
        here < there || (here == there && self.perp().dot(p) < self.perp().dot(q))
    }

    // The one of two points that lies farther this way, by the same order.
    pub fn farther(self, p: Point, q: Point) -> Point
        ensures { result ≡ (if beyond (vector self) p q then q else p) }
    {
        if self.beyond(p, q) { q } else { p }
    }
}

// a - b, in 64 bits.
fn difference(a: i32, b: i32) -> i64
    ensures { result ≡ a -ℤ b }
{
    i64::from(a) - i64::from(b)
}

// The normal (dy, -dx) of the edge from p to q, with d = q - p, or a refusal where it is no direction.
pub fn normal(p: Point, q: Point) -> Result<Direction, Fault>
    ensures { Makes (normal p q) result }
{
    Direction::new(difference(q.y, p.y), -difference(q.x, p.x))
}
