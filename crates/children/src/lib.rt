// The child lists of a sheet, in one array. Edge MAX_PARENTS * c + k stands for the parent that item c lists in place k. 0 ends a list:
// item 0 has no parents.
#![tactic(auto)]

ghost use Rattle.std.specs.Prelude.{◌≡◌, true, false, ◌<◌, ◌≤◌, ◌+◌, ◌*◌, ◌/◌, length, get_or, set, All};
ghost use Rattle.circuit.specs.Rules.{max_parents};
ghost use Rattle.circuit.specs.Sheet.{size, parents_of};
ghost use Rattle.layout.specs.Opened.{sheet_of};
ghost use Rattle.children.specs.Children.{lists, link_places, head_places, link_all, edges_of, heads_of, links_of, lists_of, family, edge_in, Kept};

use item::{Item, Sheet};
use std::marker::Model;
use value::MAX_PARENTS;

// Of an item: the edge of its lowest child, and for each place of its own parents the edge of that parent's next child. Edges stand here as
// their numbers, 0 for none: memory is fixed, and an Option for each of them would double it.
#[derive(Clone, Copy, PartialEq, Eq, Debug)]
pub struct Kin {
    child: u16,
    siblings: [u16; MAX_PARENTS],
}

impl Kin {
    pub const NONE: Kin = Kin {
        child: 0,
        siblings: [0; MAX_PARENTS],
    };

    // The edge that follows the item's own in place k.
    #[tactic(auto, using(crate::proofs::Rows::edges_put), unfolding(circuit::specs::Rules::max_parents))]
    fn link(&mut self, k: usize, edge: u16)
        requires place { k < max_parents }
        ensures child_kept { self.new.child ≡ self.old.child }
        ensures linked { edges_of self.new ≡ set (edges_of self.old) k edge }
    {
        self.siblings[k] = edge;
    }
}

// A place in which an item lists a parent: a link of that parent's list.
#[derive(Clone, Copy, PartialEq, Eq, Debug)]
pub struct Edge {
    number: u16,
}

impl Edge {
    fn at(number: u16) -> Option<Edge>
        ensures { result ≡ edge_in number }
    {
        // (By if and else: with then_some the case that is refused would stand nowhere in the text.)
        if number == 0 {
            None
        } else {
            Some(Edge { number })
        }
    }

    // The child that the edge leads to.
    #[tactic(auto, unfolding(circuit::specs::Rules::max_parents))]
    pub fn child(self) -> usize
        ensures { result ≡ self.number / max_parents }
    {
        usize::from(self.number) / MAX_PARENTS
    }
}

// The lists, and whether they are built. They are built once, where they are needed first.
// (A flag beside the lent array: an enum of built and not built would hold the same borrow in both its cases.)
#[derive(Drop)]
pub struct Children<'a> {
    kin: &'a mut [Kin],
    built: bool,
}

impl<'a> Model for Children<'a> {
    ghost use Rattle.children.specs.Children.{Family, family, lists_of};

    ghost Value = { Family };

    ghost view = { λ c. family (lists_of c.kin.now) c.built };
}

// Each edge of item c is linked to the edge that heads the list of its parent. (Two walks over the parents, here and below: one that also
// headed the list would link the second edge of a parent that is listed twice to the first, and tell that child twice.)
#[tactic(auto, unfolding(circuit::specs::Rules::max_parents))]
fn link_places(kin: &mut [Kin], item: &Item<'_>, c: usize)
    requires here { c < length kin.old }
    requires listed { All (λ p. p < length kin.old) (parents_of item.now) }
    ensures { lists_of kin.new ≡ lists (heads_of kin.old) (link_places (links_of kin.old) (heads_of kin.old) (max_parents * c) (parents_of item.now) (length (parents_of item.now))) }
{
    for k in 0..item.parent_count() {
        let head = kin[item.parent(k)].child;
        kin[c].link(k, head);
    }
}

// Each edge of item c heads the list of its parent.
#[tactic(auto, unfolding(circuit::specs::Rules::max_parents))]
fn head_places(kin: &mut [Kin], item: &Item<'_>, c: usize)
    requires fits { max_parents * c + max_parents ≤ 65_536 }
    requires listed { All (λ p. p < length kin.old) (parents_of item.now) }
    ensures { lists_of kin.new ≡ lists (head_places (heads_of kin.old) (max_parents * c) (parents_of item.now) (length (parents_of item.now))) (links_of kin.old) }
{
    for k in 0..item.parent_count() {
        // It fits, as the clause says; try_from would have a way to fail that cannot come.
        kin[item.parent(k)].child = (MAX_PARENTS * c + k) as u16;
    }
}

// The child lists of all items, from empty ones. The items come highest first, so that each list begins with its lowest.
fn link(sheet: &Sheet<'_>, kin: &mut [Kin])
    requires room { size (sheet_of sheet.now) ≤ length kin.old }
    ensures { lists_of kin.new ≡ link_all (sheet_of sheet.now) (lists_of kin.old) }
{
    for c in (0..sheet.len()).rev() {
        let item = sheet.item(c);
        link_places(kin, &item, c);
        head_places(kin, &item, c);
    }
}

impl<'a> Children<'a> {
    pub fn new(kin: &'a mut [Kin]) -> Children<'a>
        ensures { result ≡ family (lists_of kin.entry.now) false }
    {
        Children { kin, built: false }
    }

    // Builds the lists where they are needed and are not built yet. The need is handed in, and not tested around the two calls: the clauses
    // then say for both, needed or not, what holds afterwards.
    pub fn link_once(&mut self, sheet: &Sheet<'_>, needed: bool)
        requires kept { Kept (sheet_of sheet.now) self.old }
        ensures kept { Kept (sheet_of sheet.now) self.new }
        ensures there { needed ≡ true → self.new.built ≡ true }
        ensures unneeded { needed ≡ false → self.new ≡ self.old }
        ensures linked { needed ≡ true → self.old.built ≡ false → self.new.lists ≡ link_all (sheet_of sheet.now) self.old.lists }
    {
        if needed && !self.built {
            link(sheet, self.kin);
            self.built = true;
        }
    }

    // The edge of item p's lowest child.
    pub fn first(&self, p: usize) -> Option<Edge>
        requires within { p < length self.now.lists.heads }
        ensures { result ≡ edge_in (get_or self.now.lists.heads p 0) }
    {
        let kin = &*self.kin;
        Edge::at(kin[p].child)
    }

    // The edge of the same parent's next child.
    #[tactic(auto, unfolding(circuit::specs::Rules::max_parents))]
    pub fn next(&self, edge: Edge) -> Option<Edge>
        requires within { edge.number < length self.now.lists.links }
        ensures { result ≡ edge_in (get_or self.now.lists.links edge.number 0) }
    {
        let number = usize::from(edge.number);
        Edge::at(self.kin[number / MAX_PARENTS].siblings[number % MAX_PARENTS])
    }
}
