// Small graphs for a query, made by arithmetic alone, so that another program can make the same ones. (vectors/README.md, "The circle")
// Which line a judgement names is said by a definition, and for the rest only that it is safe and ends: the cases compare it.

// How many names the lines that begin with this word declare.
pub fn declared(text: &[u8], word: &[u8]) -> usize {
    for n in 0..64 {
        if texts::name(text, word, n).is_empty() {
            return n;
        }
    }
    64
}

// Whether a line says that the relation of this number is closed.
fn is_closed(text: &[u8], relation: usize) -> bool {
    let name = texts::name(text, b"rel", relation);
    for n in 0..4096 {
        let said = texts::name(text, b"closed", n);
        if said.is_empty() {
            return false;
        }
        if texts::same(said, name) {
            return true;
        }
    }
    false
}

// A graph that was made: how many bytes it has, whether it has edges, and the number that goes on.
#[derive(Clone, Copy)]
pub struct Made {
    pub bytes: usize,
    pub edged: bool,
    pub state: u64,
}

// How many events there are so far, and the number that goes on.
#[derive(Clone, Copy)]
struct Grown {
    count: usize,
    state: u64,
}

// Whether the graph breaks no line.
fn meets(
    text: &[u8],
    atoms: &[u8],
    count: usize,
    edges: &[u64],
    relations: usize,
    graph: &mut [u8],
) -> bool {
    let n = small_graphs::write(atoms, count, edges, relations, graph);
    broken_lines::broken_line(graph::judge(text, texts::first(graph, n))) == 0
}

// How many atoms there are for so many tests, of which a query has at most 6.
fn atom_count(tests: usize) -> usize {
    if 6 <= tests {
        return 64;
    }
    1 << tests
}

// How many events there are with the one whose atom stands behind those so far; with care it is taken only where the graph with it breaks
// no line.
fn with_event(text: &[u8], atoms: &[u8], count: usize, careful: bool, graph: &mut [u8]) -> usize {
    if 8 <= count {
        return count;
    }
    if careful {
        if meets(text, atoms, count + 1, &[0u64; 1], 0, graph) {
            return count + 1;
        }
        return count;
    }
    count + 1
}

// One more event with the atom that the number stands for.
fn add_event(
    text: &[u8],
    tests: usize,
    x: u64,
    careful: bool,
    atoms: &mut [u8],
    count: usize,
    graph: &mut [u8],
) -> usize {
    if atoms.len() <= count {
        return count;
    }
    atoms[count] = (small_graphs::below(x, atom_count(tests)) % 64) as u8;
    with_event(text, atoms, count, careful, graph)
}

// So many tries of an event more.
fn add_events(
    text: &[u8],
    tests: usize,
    tries: usize,
    careful: bool,
    from: u64,
    atoms: &mut [u8],
    graph: &mut [u8],
) -> Grown {
    let mut count = 0;
    let mut state = from;
    for _ in 0..tries {
        state = small_graphs::next(state);
        count = add_event(text, tests, state, careful, atoms, count, graph);
    }
    Grown { count, state }
}

// The graph with one edge more; with care it is taken back where the graph then breaks a line.
fn add_step(
    text: &[u8],
    relation: usize,
    edge: u64,
    careful: bool,
    atoms: &[u8],
    count: usize,
    relations: usize,
    edges: &mut [u64],
    graph: &mut [u8],
) {
    if edges.len() <= relation {
        return;
    }
    let before = edges[relation];
    edges[relation] = before | edge;
    if careful {
        if meets(text, atoms, count, edges, relations, graph) {
            return;
        }
        edges[relation] = before;
    }
}

// So many tries of an edge more: relation, from and to are three numbers. The number that goes on.
fn add_steps(
    text: &[u8],
    steps: usize,
    careful: bool,
    from: u64,
    atoms: &[u8],
    count: usize,
    relations: usize,
    edges: &mut [u64],
    graph: &mut [u8],
) -> u64 {
    let mut state = from;
    for _ in 0..steps {
        let a = small_graphs::next(state);
        let b = small_graphs::next(a);
        let c = small_graphs::next(b);
        let edge = small_graphs::with_edge(
            0,
            small_graphs::below(b, count),
            small_graphs::below(c, count),
        );
        add_step(
            text,
            small_graphs::below(a, relations),
            edge,
            careful,
            atoms,
            count,
            relations,
            edges,
            graph,
        );
        state = c;
    }
    state
}

// A relation that a line says is closed is closed.
fn close_one(text: &[u8], relation: usize, edges: &mut [u64]) {
    if edges.len() <= relation {
        return;
    }
    if is_closed(text, relation) {
        edges[relation] = small_graphs::closed(edges[relation]);
    }
}

// So are all relations.
fn close_all(text: &[u8], relations: usize, edges: &mut [u64]) {
    for relation in 0..relations {
        close_one(text, relation, edges);
    }
}

// The edges of a graph that has its events. The number that goes on.
fn add_edges(
    text: &[u8],
    steps: usize,
    careful: bool,
    from: u64,
    atoms: &[u8],
    count: usize,
    relations: usize,
    edges: &mut [u64],
    graph: &mut [u8],
) -> u64 {
    if count == 0 {
        return from;
    }
    if relations == 0 {
        return from;
    }
    let state = add_steps(
        text, steps, careful, from, atoms, count, relations, edges, graph,
    );
    if careful {
        return state;
    }
    close_all(text, relations, edges);
    state
}

// Whether a relation has an edge.
fn any_edges(edges: &[u64]) -> bool {
    edges.iter().any(|row| *row != 0)
}

// The next graph of a query, its bytes in the memory: up to 6 events and up to 8 edges are tried, and half of the graphs are made with care;
// in the others relations are closed where a line says so.
pub fn next_graph(
    text: &[u8],
    tests: usize,
    relations: usize,
    from: u64,
    graph: &mut [u8],
) -> Made {
    let mut atoms = [0u8; 8];
    let mut edges = [0u64; 16];
    let a = small_graphs::next(from);
    let b = small_graphs::next(a);
    let c = small_graphs::next(b);
    let careful = small_graphs::below(c, 2) == 1;
    let g = add_events(
        text,
        tests,
        small_graphs::below(a, 7),
        careful,
        c,
        &mut atoms,
        graph,
    );
    let state = add_edges(
        text,
        small_graphs::below(b, 9),
        careful,
        g.state,
        &atoms,
        g.count,
        relations,
        &mut edges,
        graph,
    );
    let bytes = small_graphs::write(&atoms, g.count, &edges, relations, graph);
    Made {
        bytes,
        edged: any_edges(&edges),
        state,
    }
}
