// The search for the groups: strongly connected components by two walks, and their order by a set of those that are ready.
// Nothing is proved of what it finds: the check that follows decides.
use crate::check::{Plan, nth};
use gh_base::{ListOf, NoMemory};
use std::alloc::Global;
use std::collections::BTreeSet;

// Numbers by a key, in ascending order under each.
#[derive(Drop)]
struct Buckets {
    starts: Vec<u32>,
    items: Vec<u32>,
}

// The graph, by edge numbers.
#[derive(Drop)]
struct Graph<'a> {
    count: u32,
    edges: &'a [(u32, u32)],
    from: Buckets,
    to: Buckets,
}

const NONE: u32 = u32::MAX;

fn set(numbers: &mut [u32], at: usize, to: u32) {
    if at < numbers.len() {
        numbers[at] = to;
    }
}

fn raise(numbers: &mut [u32], at: usize) -> u32 {
    let before = nth(numbers, at);
    set(numbers, at, before.wrapping_add(1));
    before
}

fn all(alloc: Global, count: usize, value: u32) -> Result<Vec<u32>, NoMemory> {
    Ok(vec![in alloc; value; count]?)
}

fn low(at: usize) -> u32 {
    if at > u32::MAX as usize {
        u32::MAX
    } else {
        at as u32
    }
}

fn edge_of(edges: &[(u32, u32)], at: u32) -> (u32, u32) {
    match edges.get(at as usize) {
        Some(edge) => *edge,
        None => (0, 0),
    }
}

impl Buckets {
    fn new(alloc: Global, keys: &[u32], count: u32) -> Result<Buckets, NoMemory> {
        let mut starts = all(alloc, count as usize + 1, 0)?;
        for key in keys {
            raise(starts.as_mut_slice(), *key as usize + 1);
        }
        for at in 0..count as usize {
            let sum = nth(starts.as_slice(), at).wrapping_add(nth(starts.as_slice(), at + 1));
            set(starts.as_mut_slice(), at + 1, sum);
        }
        let mut next = starts.clone()?;
        let mut items = all(alloc, keys.len(), 0)?;
        for (at, key) in keys.iter().enumerate() {
            let slot = raise(next.as_mut_slice(), *key as usize);
            set(items.as_mut_slice(), slot as usize, low(at));
        }
        Ok(Buckets { starts, items })
    }

    // The items under a key.
    fn of(&self, key: u32) -> &[u32] {
        let from = nth(self.starts.as_slice(), key as usize) as usize;
        let to = nth(self.starts.as_slice(), key as usize + 1) as usize;
        if from <= to && to <= self.items.len() {
            &self.items.as_slice()[from..to]
        } else {
            &[]
        }
    }
}

fn make_graph<'a>(
    alloc: Global,
    count: u32,
    edges: &'a [(u32, u32)],
) -> Result<Graph<'a>, NoMemory> {
    let mut sources = Vec::new(alloc);
    let mut targets = Vec::new(alloc);
    for edge in edges {
        sources.push(edge.0)?;
        targets.push(edge.1)?;
    }
    let from = Buckets::new(alloc, sources.as_slice(), count)?;
    let to = Buckets::new(alloc, targets.as_slice(), count)?;
    Ok(Graph {
        count,
        edges,
        from,
        to,
    })
}

// A walk along the edges that has gone down from some numbers and not come back yet.
#[derive(Drop)]
struct Walk {
    seen: Vec<u32>,
    next: Vec<u32>,
    open: Vec<u32>,
    finished: Vec<u32>,
}

impl Walk {
    fn open(&mut self, number: u32) -> Result<(), NoMemory> {
        set(self.seen.as_mut_slice(), number as usize, 1);
        self.open.push(number)?;
        Ok(())
    }

    // One edge further from the last open number, or back from it.
    fn step(&mut self, graph: &Graph, number: u32) -> Result<(), NoMemory> {
        let at = raise(self.next.as_mut_slice(), number as usize);
        match graph.from.of(number).get(at as usize) {
            Some(edge) => {
                let to = edge_of(graph.edges, *edge).1;
                if nth(self.seen.as_slice(), to as usize) == 0 {
                    self.open(to)?;
                }
            }
            None => {
                self.open.pop();
                self.finished.push(number)?;
            }
        }
        Ok(())
    }
}

// The numbers in the order in which a walk in depth leaves them.
fn finish_order(alloc: Global, graph: &Graph) -> Result<Vec<u32>, NoMemory> {
    let count = graph.count as usize;
    let mut walk = Walk {
        seen: all(alloc, count, 0)?,
        next: all(alloc, count, 0)?,
        open: Vec::new(alloc),
        finished: Vec::new(alloc),
    };
    let most = (graph.edges.len() as u64).wrapping_add(2 * u64::from(graph.count));
    for root in 0..graph.count {
        if nth(walk.seen.as_slice(), root as usize) == 0 {
            walk.open(root)?;
        }
        for _ in 0..most {
            let number = match walk.open.as_slice().last() {
                Some(number) => *number,
                None => break,
            };
            walk.step(graph, number)?;
        }
    }
    Ok(walk.finished)
}

// Gives a component's number to all that reach a root and have none.
fn collect(
    alloc: Global,
    graph: &Graph,
    parts: &mut [u32],
    root: u32,
    part: u32,
) -> Result<(), NoMemory> {
    let mut open = Vec::new(alloc);
    set(parts, root as usize, part);
    open.push(root)?;
    for _ in 0..graph.count {
        let number = match open.pop() {
            Some(number) => number,
            None => break,
        };
        for edge in graph.to.of(number) {
            let from = edge_of(graph.edges, *edge).0;
            if nth(parts, from as usize) == NONE {
                set(parts, from as usize, part);
                open.push(from)?;
            }
        }
    }
    Ok(())
}

// The component of each number, and how many there are.
fn components(alloc: Global, graph: &Graph) -> Result<(Vec<u32>, u32), NoMemory> {
    let order = finish_order(alloc, graph)?;
    let mut parts = all(alloc, graph.count as usize, NONE)?;
    let mut part: u32 = 0;
    for root in order.as_slice().iter().rev() {
        if nth(parts.as_slice(), *root as usize) == NONE {
            collect(alloc, graph, parts.as_mut_slice(), *root, part)?;
            part = part.wrapping_add(1);
        }
    }
    Ok((parts, part))
}

// From a component's first number through all of it, against the edges or along them: the edge by which each was met.
fn spread(
    alloc: Global,
    graph: &Graph,
    parts: &[u32],
    root: u32,
    up: bool,
    met: &mut [u32],
    ranks: &mut [u32],
) -> Result<(), NoMemory> {
    let mut open = Vec::new(alloc);
    let mut rank: u32 = 0;
    open.push(root)?;
    for _ in 0..graph.count {
        let number = match open.pop() {
            Some(number) => number,
            None => break,
        };
        let edges = if up {
            graph.to.of(number)
        } else {
            graph.from.of(number)
        };
        for edge in edges {
            let (from, to) = edge_of(graph.edges, *edge);
            let other = if up { from } else { to };
            if other != root
                && nth(met, other as usize) == NONE
                && nth(parts, other as usize) == nth(parts, root as usize)
            {
                rank = rank.wrapping_add(1);
                set(met, other as usize, *edge);
                set(ranks, other as usize, rank);
                open.push(other)?;
            }
        }
    }
    Ok(())
}

// The components of a graph, each with its numbers, its first one, and how many edges to components that are not done.
#[derive(Drop)]
struct Parts {
    of: Vec<u32>,
    members: Buckets,
    firsts: Vec<u32>,
    pending: Vec<u32>,
}

fn make_parts(alloc: Global, graph: &Graph) -> Result<Parts, NoMemory> {
    let (of, count) = components(alloc, graph)?;
    let members = Buckets::new(alloc, of.as_slice(), count)?;
    let mut firsts = Vec::new(alloc);
    for part in 0..count {
        firsts.push(nth(members.of(part), 0))?;
    }
    let mut pending = all(alloc, count as usize, 0)?;
    for edge in graph.edges {
        let part = nth(of.as_slice(), edge.0 as usize);
        if nth(of.as_slice(), edge.1 as usize) != part {
            raise(pending.as_mut_slice(), part as usize);
        }
    }
    Ok(Parts {
        of,
        members,
        firsts,
        pending,
    })
}

// Takes a component off those that its referrers wait for, and adds to the ready ones what then waits for none.
fn release(
    graph: &Graph,
    parts: &mut Parts,
    part: u32,
    ready: &mut BTreeSet<u32>,
) -> Result<(), NoMemory> {
    for number in parts.members.of(part) {
        for edge in graph.to.of(*number) {
            let from = edge_of(graph.edges, *edge).0;
            let other = nth(parts.of.as_slice(), from as usize);
            if other != part {
                let left = nth(parts.pending.as_slice(), other as usize).wrapping_sub(1);
                set(parts.pending.as_mut_slice(), other as usize, left);
                if left == 0 {
                    ready.insert(nth(parts.firsts.as_slice(), other as usize))?;
                }
            }
        }
    }
    Ok(())
}

// The components in order: of the ready ones always the one with the least number.
fn part_order(alloc: Global, graph: &Graph, parts: &mut Parts) -> Result<Vec<u32>, NoMemory> {
    let mut ready = BTreeSet::new(alloc);
    for part in 0..low(parts.firsts.len()) {
        if nth(parts.pending.as_slice(), part as usize) == 0 {
            ready.insert(nth(parts.firsts.as_slice(), part as usize))?;
        }
    }
    let mut order = Vec::new(alloc);
    for _ in 0..parts.firsts.len() {
        let first = match ready.pop_first() {
            Some(first) => first,
            None => break,
        };
        let part = nth(parts.of.as_slice(), first as usize);
        order.push(part)?;
        release(graph, parts, part, &mut ready)?;
    }
    Ok(order)
}

// For each group the edge to the last of the other groups that it refers to.
fn waits_of(
    alloc: Global,
    edges: &[(u32, u32)],
    places: &[u32],
    count: usize,
) -> Result<Vec<u32>, NoMemory> {
    let mut waits = all(alloc, count, NONE)?;
    let mut latest = all(alloc, count, 0)?;
    for (at, edge) in edges.iter().enumerate() {
        let own = nth(places, edge.0 as usize);
        let other = nth(places, edge.1 as usize);
        if own != other && other >= nth(latest.as_slice(), own as usize) {
            set(latest.as_mut_slice(), own as usize, other);
            set(waits.as_mut_slice(), own as usize, low(at));
        }
    }
    Ok(waits)
}

// A plan of numbers that are in no group yet.
fn empty_plan(alloc: Global, count: usize) -> Result<Plan, NoMemory> {
    Ok(Plan {
        places: all(alloc, count, 0)?,
        indexes: all(alloc, count, 0)?,
        ups: all(alloc, count, NONE)?,
        up_ranks: all(alloc, count, 0)?,
        downs: all(alloc, count, NONE)?,
        down_ranks: all(alloc, count, 0)?,
        waits: Vec::new(alloc),
    })
}

// Gives each member of a group its place, which is the group's, and its index in the group.
fn place_members(plan: &mut Plan, place: usize, members: &[u32]) {
    for (index, number) in members.iter().enumerate() {
        set(plan.places.as_mut_slice(), *number as usize, low(place));
        set(plan.indexes.as_mut_slice(), *number as usize, low(index));
    }
}

// The edges by which the members of a group reach its first number, and by which it reaches them.
fn spread_both(
    alloc: Global,
    graph: &Graph,
    parts: &[u32],
    first: u32,
    plan: &mut Plan,
) -> Result<(), NoMemory> {
    let ups = plan.ups.as_mut_slice();
    spread(
        alloc,
        graph,
        parts,
        first,
        true,
        ups,
        plan.up_ranks.as_mut_slice(),
    )?;
    let downs = plan.downs.as_mut_slice();
    spread(
        alloc,
        graph,
        parts,
        first,
        false,
        downs,
        plan.down_ranks.as_mut_slice(),
    )
}

// One group more, at this place.
fn add_group(
    alloc: Global,
    graph: &Graph,
    parts: &[u32],
    members: &[u32],
    place: usize,
    groups: &mut ListOf<ListOf<u32>>,
    plan: &mut Plan,
) -> Result<(), NoMemory> {
    place_members(plan, place, members);
    spread_both(alloc, graph, parts, nth(members, 0), plan)?;
    groups.push(ListOf::from_slice(alloc, members)?)
}

// All groups, in the order of their components.
fn add_groups(
    alloc: Global,
    graph: &Graph,
    parts: &Parts,
    order: &[u32],
    groups: &mut ListOf<ListOf<u32>>,
    plan: &mut Plan,
) -> Result<(), NoMemory> {
    for (place, part) in order.iter().enumerate() {
        let members = parts.members.of(*part);
        add_group(
            alloc,
            graph,
            parts.of.as_slice(),
            members,
            place,
            groups,
            plan,
        )?;
    }
    plan.waits = waits_of(alloc, graph.edges, plan.places.as_slice(), order.len())?;
    Ok(())
}

// The groups of components in this order, and their plan.
fn planned(
    alloc: Global,
    graph: &Graph,
    parts: &Parts,
    order: &[u32],
) -> Result<(ListOf<ListOf<u32>>, Plan), NoMemory> {
    let mut plan = empty_plan(alloc, graph.count as usize)?;
    let mut groups = ListOf::new(alloc);
    add_groups(alloc, graph, parts, order, &mut groups, &mut plan)?;
    Ok((groups, plan))
}

// The groups in their order, and why they are the right ones.
pub(crate) fn search(
    alloc: Global,
    count: u32,
    edges: &[(u32, u32)],
) -> Result<(ListOf<ListOf<u32>>, Plan), NoMemory> {
    let graph = make_graph(alloc, count, edges)?;
    let mut parts = make_parts(alloc, &graph)?;
    let order = part_order(alloc, &graph, &mut parts)?;
    planned(alloc, &graph, &parts, order.as_slice())
}
