//! Worked exchanges between a few trees over small grids of the plane.
ghost use Rattle.std.specs.Prelude.{◌≡◌, ◌<◌, ◌≤◌, true, All, IfOk};
ghost use Rattle.peano_keys.specs.declared.dim.Dim.TheVariants.{Two};
ghost use Rattle.peano_keys.specs.Grid.{IsGrid};
ghost use Rattle.curve_cuts.specs.Keys.{cuts_of};
ghost use Rattle.spacetree.specs.Build.{IsZone};
ghost use Rattle.spacetree.specs.Fields.{IsFieldOn};
ghost use Rattle.boundary_streams.specs.Trees.{IsKeyOf, IsTreeOf};

use adapt_sweep::raise_tree;
use boundary_streams::{Outbox, collect, merge};
use curve_cuts::{Keys, is_tiling};
use peano_keys::{CellKey, Dim, Mark, State, VertexKey, adjacent, is_cell, is_vertex};
use peano_records::{Intent, Slot, Status};
use spacetree::{BuildFault, Field, Grid, Listed, Shape, Zone};
use std::alloc::{AllocError, Global};
use std::process::Abort;
use step_phases::Phase;
use tree_automaton::TreeStore;

// The cells of level 1 along the curve, before the middle one and after it.
const BEFORE: [(u32, u32); 4] = [(0, 0), (0, 1), (0, 2), (1, 2)];

const AFTER: [(u32, u32); 4] = [(1, 0), (2, 0), (2, 1), (2, 2)];

// The children of the middle one along the curve.
const INSIDE: [(u32, u32); 9] = [
    (5, 5),
    (5, 4),
    (5, 3),
    (4, 3),
    (4, 4),
    (4, 5),
    (3, 5),
    (3, 4),
    (3, 3),
];

// Adds cells of a level to a list.
fn add(tiles: &mut Vec<CellKey>, level: u32, places: &[(u32, u32)]) -> Result<(), AllocError> {
    for (first, second) in places {
        tiles.push(CellKey {
            level,
            x: [*first, *second, 0],
        })?;
    }
    Ok(())
}

// Cells that tile the plane, along the curve: the root or its children, of which the middle one may be cut.
fn tiles(alloc: Global, base: u32, refined: u32) -> Result<Vec<CellKey>, AllocError> {
    let mut tiles = Vec::new(alloc);
    if base == 0 {
        add(&mut tiles, 0, &[(0, 0)])?;
        return Ok(tiles);
    }
    add(&mut tiles, 1, &BEFORE)?;
    if refined == 1 {
        add(&mut tiles, 2, &INSIDE)?;
    } else {
        add(&mut tiles, 1, &[(1, 1)])?;
    }
    add(&mut tiles, 1, &AFTER)?;
    Ok(tiles)
}

// The keys of so many trees, with equal shares of some tiles.
fn keys_over(
    rt: &impl Abort,
    alloc: Global,
    tiles: &[CellKey],
    trees: u32,
) -> Result<Keys, AllocError> {
    assert!(rt; 1 <= trees);
    assert!(rt; trees <= 64);
    if is_tiling(Dim::Two, 2, tiles) {
        Keys::equal(alloc, Dim::Two, 2, tiles, trees)
    } else {
        panic!(rt; "these tiles leave gaps")
    }
}

// The box of one of the root's children on the diagonal, which is to be refined.
fn zone(x: u32) -> Zone
    requires { x < 3 }
    ensures { IsZone Two 2 result }
{
    Zone {
        level: 1,
        from: [x, x, 0],
        to: [x + 1, x + 1, 1],
        until: 2,
    }
}

// The boxes of no child, of the middle one, or of the first one and the middle one.
fn zones(alloc: Global, refined: u32) -> Result<Vec<Zone>, AllocError>
    ensures { IfOk result (λ zones. All (IsZone Two 2) zones.items) }
{
    if refined == 0 {
        return Ok(Vec::new(alloc));
    }
    if refined == 1 {
        return Ok(vec![in alloc; zone(1)]?);
    }
    Ok(vec![in alloc; zone(0), zone(1)]?)
}

// The grid of a base in the plane, with so many of the root's children refined.
fn opened(alloc: Global, base: u32, refined: u32) -> Result<Grid, BuildFault>
    requires { base ≤ 2 }
    ensures grid { IfOk result (IsGrid 2) }
    ensures served { IfOk result (IsGrid 12) }
{
    let Ok(zones) = zones(alloc, refined) else {
        return Err(BuildFault::NoMemory);
    };
    let shape = Shape {
        dim: Dim::Two,
        depth: 2,
        base,
        zones: Listed::new(zones),
    };
    Grid::build(alloc, &shape)
}

// Raises one of the trees.
fn raise(
    rt: &impl Abort,
    alloc: Global,
    grid: &Grid,
    field: &Field,
    keys: &Keys,
    tree: u32,
) -> Result<TreeStore, AllocError>
    requires grid { IsGrid 2 grid.now }
    requires field { IsFieldOn 1 grid.now field.now }
{
    assert!(rt; keys.depth() == 2);
    assert!(rt; keys.dim() == grid.dim());
    assert!(rt; tree < keys.trees());
    let mut store = TreeStore::new(alloc, grid.dim(), 2, keys.range(tree), tree);
    raise_tree(&mut store, grid, field, keys, 0)?;
    Ok(store)
}

// The raised stores of all trees.
fn raised(
    rt: &impl Abort,
    alloc: Global,
    grid: &Grid,
    keys: &Keys,
) -> Result<Vec<TreeStore>, AllocError>
    requires grid { IsGrid 2 grid.now }
    requires served { IsGrid 12 grid.now }
{
    let field = Field::opening(alloc, grid, &[], 1)?;
    let mut stores = Vec::new(alloc);
    for tree in 0..keys.trees() {
        stores.push(raise(rt, alloc, grid, &field, keys, tree)?)?;
    }
    Ok(stores)
}

// So many trees over a grid.
fn trees_over(
    rt: &impl Abort,
    alloc: Global,
    base: u32,
    refined: u32,
    trees: u32,
) -> Result<(Keys, Vec<TreeStore>), AllocError> {
    assert!(rt; base <= 2);
    let Ok(grid) = opened(alloc, base, refined) else {
        return Err(AllocError);
    };
    let tiles = tiles(alloc, base, refined)?;
    let keys = keys_over(rt, alloc, tiles.as_slice(), trees)?;
    let stores = raised(rt, alloc, &grid, &keys)?;
    Ok((keys, stores))
}

// A key is that of a vertex of the domain, of a level down to the depth.
fn expect_key(rt: &impl Abort, keys: &Keys, vertex: VertexKey)
    ensures { IsKeyOf (cuts_of keys.now) vertex }
{
    assert!(rt; is_vertex(keys.dim(), &vertex));
    assert!(rt; vertex.level <= keys.depth());
}

// So are the keys of all vertices of a store.
fn expect_keys(rt: &impl Abort, store: &TreeStore, keys: &Keys)
    requires { store.now.live ≡ true }
    ensures { All (λ v. IsKeyOf (cuts_of keys.now) v.key) store.now.lanes.input }
{
    for k in 0..store.input_count() {
        let vertex = store.key_at(k);
        expect_key(rt, keys, vertex);
    }
}

// A store is one of the trees.
fn expect_tree(rt: &impl Abort, store: &TreeStore, keys: &Keys)
    ensures { IsTreeOf (cuts_of keys.now) store.now }
{
    assert!(rt; store.is_live());
    assert!(rt; store.dim() == keys.dim());
    assert!(rt; store.depth() == keys.depth());
    assert!(rt; store.tree() < keys.trees());
    assert!(rt; store.range() == keys.range(store.tree()));
    expect_keys(rt, store, keys);
}

// What a tree sends.
fn collect_one(
    rt: &impl Abort,
    alloc: Global,
    store: &TreeStore,
    keys: &Keys,
) -> Result<Outbox, AllocError> {
    expect_tree(rt, store, keys);
    collect(alloc, store, keys)
}

// Merges what was sent into a tree.
fn merge_one(
    rt: &impl Abort,
    alloc: Global,
    store: &mut TreeStore,
    keys: &Keys,
    boxes: &[Outbox],
    phase: Phase,
) -> Result<(), AllocError> {
    expect_tree(rt, store, keys);
    merge(alloc, store, keys, boxes, phase)
}

// A slot of a vertex, and the cell that it is of; none outside the domain.
fn read(rt: &impl Abort, store: &TreeStore, k: u64, n: u32) -> (Option<CellKey>, Slot) {
    assert!(rt; store.is_live());
    assert!(rt; k < store.input_count());
    assert!(rt; n < 4);
    let vertex = store.key_at(k);
    assert!(rt; is_vertex(Dim::Two, &vertex));
    (adjacent(Dim::Two, vertex, n), store.slot_at(k, n))
}

// Changes a slot of a vertex.
fn write(rt: &impl Abort, store: &mut TreeStore, k: u64, n: u32, slot: Slot) {
    assert!(rt; store.is_live());
    assert!(rt; k < store.input_count());
    assert!(rt; n < 8);
    store.set_slot(k, n, slot);
}

// Whether a tree owns a cell.
fn is_owner(rt: &impl Abort, keys: &Keys, cell: CellKey, tree: u32) -> bool {
    assert!(rt; is_cell(keys.dim(), &cell));
    assert!(rt; cell.level <= keys.depth());
    keys.owner(cell) == tree
}

// A state that tells of which cell it is, and of which exchange.
fn word(cell: CellKey, exchange: i64) -> State {
    State::Quadruple(
        exchange,
        i64::from(cell.level),
        i64::from(cell.x[0]),
        i64::from(cell.x[1]),
    )
}

// What the owner of a cell makes of its slot before an exchange.
fn told(phase: Phase, cell: CellKey, slot: Slot) -> Slot {
    match phase {
        Phase::Opening => Slot {
            value: word(cell, 0),
            intent: Intent::Split,
            ..slot
        },
        Phase::First => Slot {
            next: word(cell, 1),
            mark: Mark::Coarsen,
            ..slot
        },
        Phase::Second => Slot {
            next: word(cell, 2),
            intent: Intent::Merge,
            ..slot
        },
        Phase::Third => Slot {
            value: word(cell, 3),
            ..slot
        },
    }
}

// Whether the slot of a cell says after an exchange what its owner told.
fn is_told(phase: Phase, cell: CellKey, slot: Slot) -> bool {
    match phase {
        Phase::Opening => slot.value == word(cell, 0) && slot.intent == Intent::Stay,
        Phase::First => {
            slot.next == word(cell, 1) && slot.value == word(cell, 0) && slot.mark == Mark::Coarsen
        }
        Phase::Second => {
            slot.next == word(cell, 2)
                && slot.value == word(cell, 2)
                && slot.intent == Intent::Merge
        }
        Phase::Third => slot.value == word(cell, 3) && slot.intent == Intent::Stay,
    }
}

// Changes one slot, if the tree owns its cell.
fn tell_slot(rt: &impl Abort, store: &mut TreeStore, keys: &Keys, k: u64, n: u32, phase: Phase) {
    let (Some(cell), slot) = read(rt, store, k, n) else {
        return;
    };
    if is_owner(rt, keys, cell, store.tree()) {
        write(rt, store, k, n, told(phase, cell, slot));
    }
}

// Changes the slots of the tree's own cells, as the sweep before an exchange does.
fn tell(rt: &impl Abort, store: &mut TreeStore, keys: &Keys, phase: Phase) {
    for k in 0..store.input_count() {
        for n in 0..4 {
            tell_slot(rt, store, keys, k, n, phase);
        }
    }
}

// Whether a slot says what it should: the owner's word, or that no cell is there.
fn is_fresh(rt: &impl Abort, store: &TreeStore, k: u64, n: u32, phase: Phase) -> bool {
    match read(rt, store, k, n) {
        (Some(cell), slot) => is_told(phase, cell, slot),
        (None, slot) => slot.status == Status::Outside,
    }
}

// How many slots do not say what they should.
fn stale(rt: &impl Abort, store: &TreeStore, phase: Phase) -> u64 {
    let mut count: u64 = 0;
    for k in 0..store.input_count() {
        for n in 0..4 {
            if !is_fresh(rt, store, k, n, phase) {
                count = count.saturating_add(1);
            }
        }
    }
    count
}

// How many parcels a box has for each of four trees.
fn counts(outbox: &Outbox) -> [usize; 4] {
    [
        outbox.parcels_for(0).len(),
        outbox.parcels_for(1).len(),
        outbox.parcels_for(2).len(),
        outbox.parcels_for(3).len(),
    ]
}

// Each tree has so many vertices.
fn expect_stored(rt: &impl Abort, stores: &[TreeStore], want: [u64; 4], name: &str) {
    for i in 0..4usize {
        if let Some(store) = stores.get(i) {
            assert_eq!(rt; store.input_count(), want[i], "{name}");
        }
    }
}

// Each tree sends so many vertices to each other one.
fn expect_sent(rt: &impl Abort, boxes: &[Outbox], want: [[usize; 4]; 4], name: &str) {
    for i in 0..4usize {
        if let Some(outbox) = boxes.get(i) {
            assert_eq!(rt; outbox.sender() as usize, i, "{name}");
            assert_eq!(rt; counts(outbox), want[i], "{name}");
        }
    }
}

// What all trees send, after each told what it knows of its own cells.
fn tell_all(
    rt: &impl Abort,
    alloc: Global,
    stores: &mut [TreeStore],
    keys: &Keys,
    phase: Phase,
) -> Result<Vec<Outbox>, AllocError> {
    let mut boxes = Vec::new(alloc);
    for store in stores.iter_mut() {
        tell(rt, store, keys, phase);
        boxes.push(collect_one(rt, alloc, store, keys)?)?;
    }
    Ok(boxes)
}

// All trees merge; then each slot of each says what its owner told.
fn merge_all(
    rt: &impl Abort,
    alloc: Global,
    stores: &mut [TreeStore],
    keys: &Keys,
    boxes: &[Outbox],
    phase: Phase,
    name: &str,
) -> Result<(), AllocError> {
    for store in stores.iter_mut() {
        merge_one(rt, alloc, store, keys, boxes, phase)?;
        assert_eq!(rt; stale(rt, store, phase), 0, "{name}");
    }
    Ok(())
}

// The four exchanges of a run: in each, every tree sends so many vertices, and afterwards every slot is fresh.
fn exchange_all(
    rt: &impl Abort,
    alloc: Global,
    stores: &mut [TreeStore],
    keys: &Keys,
    sent: [[usize; 4]; 4],
    name: &str,
) -> Result<(), AllocError> {
    for phase in [Phase::Opening, Phase::First, Phase::Second, Phase::Third] {
        let boxes = tell_all(rt, alloc, stores, keys, phase)?;
        expect_sent(rt, boxes.as_slice(), sent, name);
        merge_all(rt, alloc, stores, keys, boxes.as_slice(), phase, name)?;
    }
    Ok(())
}

#[test]
fn trees_that_share_vertices(rt: HostRuntime) -> Result<(), AllocError> {
    // The base, how many of the root's children are refined, and how many trees there are; the vertices of each tree,
    // and how many of them it sends to each one.
    let table = [
        (
            "nine leaves and two trees",
            (1, 0, 2),
            [14, 15, 0, 0],
            [[0, 9, 0, 0], [9, 0, 0, 0], [0; 4], [0; 4]],
        ),
        (
            "the cut stands inside the refined middle",
            (1, 1, 2),
            [18, 19, 0, 0],
            [[0, 13, 0, 0], [13, 0, 0, 0], [0; 4], [0; 4]],
        ),
        (
            "two refined cells",
            (1, 2, 2),
            [23, 19, 0, 0],
            [[0, 9, 0, 0], [9, 0, 0, 0], [0; 4], [0; 4]],
        ),
        (
            "three columns, which share the vertices of the root",
            (1, 0, 3),
            [12, 12, 12, 0],
            [[0, 8, 4, 0], [8, 0, 8, 0], [4, 8, 0, 0], [0; 4]],
        ),
        (
            "two vertices at which three of four ranges meet",
            (1, 0, 4),
            [10, 10, 10, 12],
            [[0, 6, 7, 4], [6, 0, 6, 6], [7, 6, 0, 7], [4, 6, 7, 0]],
        ),
        (
            "all for the last of three",
            (0, 0, 3),
            [0, 0, 4, 0],
            [[0; 4]; 4],
        ),
    ];
    let alloc = rt.alloc();
    for (name, (base, refined, trees), stored, sent) in table {
        let (keys, mut stores) = trees_over(&rt, alloc, base, refined, trees)?;
        expect_stored(&rt, stores.as_slice(), stored, name);
        exchange_all(&rt, alloc, stores.as_mut_slice(), &keys, sent, name)?;
    }
    Ok(())
}

const OURS: Slot = Slot {
    value: State::Single(1),
    next: State::Single(2),
    status: Status::Leaf,
    mark: Mark::Keep,
    intent: Intent::Split,
};

const THEIRS: Slot = Slot {
    value: State::Single(3),
    next: State::Single(4),
    status: Status::Refined,
    mark: Mark::Refine,
    intent: Intent::Merge,
};

// Writes the same into each slot of a tree.
fn fill(rt: &impl Abort, store: &mut TreeStore, slot: Slot) {
    for k in 0..store.input_count() {
        for n in 0..4 {
            write(rt, store, k, n, slot);
        }
    }
}

// The slots of all vertices of a tree.
fn slots_of(rt: &impl Abort, alloc: Global, store: &TreeStore) -> Result<Vec<Slot>, AllocError> {
    let mut slots = Vec::new(alloc);
    for k in 0..store.input_count() {
        for n in 0..4 {
            slots.push(read(rt, store, k, n).1)?;
        }
    }
    Ok(slots)
}

// How many slots say this.
fn count_of(slots: &[Slot], want: Slot) -> u64 {
    let mut count: u64 = 0;
    for slot in slots {
        if *slot == want {
            count = count.saturating_add(1);
        }
    }
    count
}

// Fills one tree with our slot and another one with theirs, and merges into the first what the other sends. Where that is
// refused, each slot is as before, and it is merged again.
fn exchange_filled(
    rt: &impl Abort,
    alloc: Global,
    ours: &mut TreeStore,
    theirs: &mut TreeStore,
    keys: &Keys,
    phase: Phase,
) -> Result<Vec<Slot>, AllocError> {
    fill(rt, ours, OURS);
    fill(rt, theirs, THEIRS);
    let mut boxes = Vec::new(alloc);
    boxes.push(collect_one(rt, alloc, theirs, keys)?)?;
    let before = slots_of(rt, alloc, ours)?;
    if merge_one(rt, alloc, ours, keys, boxes.as_slice(), phase).is_err() {
        let after = slots_of(rt, alloc, ours)?;
        assert!(rt; after == before);
        merge_one(rt, alloc, ours, keys, boxes.as_slice(), phase)?;
    }
    slots_of(rt, alloc, ours)
}

// What becomes of our slot in an exchange: where no word of theirs comes, and where theirs is taken over.
fn slots_after(phase: Phase) -> [Slot; 2] {
    let settled = Slot {
        intent: Intent::Stay,
        ..OURS
    };
    let opened = Slot {
        value: State::Single(3),
        status: Status::Refined,
        ..settled
    };
    match phase {
        Phase::First => [
            OURS,
            Slot {
                next: State::Single(4),
                mark: Mark::Refine,
                ..OURS
            },
        ],
        Phase::Second => [
            Slot {
                value: State::Single(2),
                ..OURS
            },
            Slot {
                value: State::Single(4),
                next: State::Single(4),
                intent: Intent::Merge,
                ..OURS
            },
        ],
        Phase::Third | Phase::Opening => [settled, opened],
    }
}

// Of the 14 vertices of the first four of nine leaves, eight slots are of the other leaves and four of the root, all of
// which the other tree owns. The other 44 are of cells of its own, or of none.
#[test]
fn each_phase_slot_by_slot(rt: HostRuntime) -> Result<(), AllocError> {
    let alloc = rt.alloc();
    let (keys, mut stores) = trees_over(&rt, alloc, 1, 0, 2)?;
    let Some(mut theirs) = stores.pop() else {
        return Err(AllocError);
    };
    let Some(mut ours) = stores.pop() else {
        return Err(AllocError);
    };
    for phase in [Phase::First, Phase::Second, Phase::Third, Phase::Opening] {
        let slots = exchange_filled(&rt, alloc, &mut ours, &mut theirs, &keys, phase)?;
        let [alone, told] = slots_after(phase);
        assert_eq!(rt;
            [
                count_of(slots.as_slice(), told),
                count_of(slots.as_slice(), alone)
            ],
            [12, 44]
        );
    }
    Ok(())
}
