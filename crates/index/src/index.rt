// The index takes its store by value, and close yields it again.
ghost use Rattle.std.specs.Prelude.{◌≡◌, ◌≢◌, IfSome, None, Some, Ok, Err, length};
ghost use Rattle.store.specs.Calls.{Leaves};
ghost use Rattle.store.specs.declared.fault.Refusal.TheVariants.{Down, Uneven};
ghost use Rattle.plain.specs.Plain.{find as plain_find, floor as plain_floor, rank as plain_rank, one_more};
ghost use Rattle.tree.specs.Tree.{adds, drops};
ghost use Rattle.held.specs.Held.{kind};
ghost use Rattle.index.specs.Open.{SameHandle, Queried};
ghost use Rattle.index.specs.Created.{LaysOut, Creates};
ghost use Rattle.balance.specs.Updates.{own_refusal};
ghost use Rattle.index.specs.Reported.{Reports};
ghost use Rattle.index.specs.Updated.{Rewrites, Updates};
ghost use Rattle.index.specs.Steps.{StepsAt, Remembers};

use ask::find::{find, floor};
use ask::rank::rank;
use ask::report::{Stopped, report};
use balance::marks::Marks;
use balance::update::{Tree, Updated, refuse};
use grow::insert::insert;
use grow::root::take_root;
use keys::key::Key;
use nodes::header::{Header, put_header};
use nodes::layout::block_width;
use nodes::node::Node;
use plain::pair::Pair;
use shrink::delete::delete;
use std::marker::PhantomData;
use store::blocks::Store;
use store::fault::{Fault, Refusal, Refused};

// An open index. `header` is the header's block; `tree` has the root and the number of keys, within their bounds.
// A store that said 'down' is remembered by its fault. Nodes are named by their blocks' numbers and not owned: a rule of the
// project has the tree as words in blocks, a child being one of them.
pub struct Index<K, S> {
    store: S,
    header: u32,
    tree: Tree,
    tally: u64,
    fault: Option<Fault>,
    kind: PhantomData<K>,
}

// A new index, and the block number of its header.
pub struct Created<K, S> {
    pub index: Index<K, S>,
    pub header: u32,
}

// Takes a header and an empty leaf, where the store has the right width, no grants, and room for both.
fn lay_out<K: Key, S: Store>(store: &mut S) -> Result<(u32, Tree), Fault>
    ensures { Leaves S.meaning S.ready (LaysOut (kind K.width K.order K.packed K.unpacked)) store.old result store.new }
{
    let stock = store.stock()?;
    if stock.width != block_width::<K>() || stock.granted != 0 {
        return Err(refuse(Refusal::Misfit));
    }
    if stock.free() < 2 {
        return Err(refuse(Refusal::NoRoom));
    }
    let at = store.take()?;
    let root = Node {
        block: take_root(store)?,
        level: 0,
    };
    let header = Header { root, keys: 0 };
    put_header::<K, S>(store, at, &header)?;
    Ok((at, Tree { header }))
}

// Puts a pair into the tree, and writes the tree's header into its block.
fn put_in<K: Key, S: Store>(
    store: &mut S,
    at: u32,
    tree: Tree,
    key: &K,
    handle: u64,
) -> Result<Updated, Fault>
    ensures { Leaves S.meaning S.ready (Rewrites (kind K.width K.order K.packed K.unpacked) at tree.header (adds key.now handle)) store.old result store.new }
{
    let updated = insert(store, tree, key, handle)?;
    put_header::<K, S>(store, at, &updated.tree.header)?;
    Ok(updated)
}

// Takes a key out of the tree, and writes the tree's header into its block.
fn take_out<K: Key, S: Store>(store: &mut S, at: u32, tree: Tree, key: &K) -> Result<Updated, Fault>
    ensures { Leaves S.meaning S.ready (Rewrites (kind K.width K.order K.packed K.unpacked) at tree.header (drops key.now)) store.old result store.new }
{
    let updated = delete(store, tree, key)?;
    put_header::<K, S>(store, at, &updated.tree.header)?;
    Ok(updated)
}

impl<K: Key, S: Store> Index<K, S> {
    // Makes an empty index in a store that has no grants. Refused, it hands the store back.
    pub fn create(mut store: S) -> Result<Created<K, S>, Refused<Fault, S>>
        ensures { Creates (kind K.width K.order K.packed K.unpacked) S.meaning S.ready store result }
    {
        match lay_out::<K, S>(&mut store) {
            Ok((header, tree)) => {
                let index = Index {
                    store,
                    header,
                    tree,
                    tally: 0,
                    fault: None,
                    kind: PhantomData,
                };
                Ok(Created { index, header })
            }
            Err(cause) => Err(Refused { cause, back: store }),
        }
    }

    // Yields the store.
    pub fn close(self) -> S
        ensures { result ≡ self.store }
    {
        let Index {
            store,
            header: _,
            tree: _,
            tally: _,
            fault: _,
            kind: _,
        } = self;
        store
    }

    // Keeps in mind that the store is down.
    fn note(&mut self, fault: &Fault)
        ensures store { self.new.store ≡ self.old.store }
        ensures handle { SameHandle self.old self.new }
        ensures down { fault.now.refusal ≡ Down → self.new.fault ≡ Some fault.now }
        ensures other { (fault.now.refusal ≢ Down) → self.new.fault ≡ self.old.fault }
    {
        if fault.refusal == Refusal::Down {
            self.fault = Some(*fault);
        }
    }

    // Takes a step on the store, unless it said 'down' before.
    fn step<T, F: FnOnce(&mut S, Tree) -> Result<T, Fault>>(&mut self, step: F) -> Result<T, Fault>
        requires { F.IsAlwaysCallable step }
        ensures repeats { IfSome self.old.fault (λ f. (result ≡ Err f) × (self.new ≡ self.old)) }
        ensures steps { self.old.fault ≡ None → StepsAt F.FnOnce step self.old.store self.old.tree result self.new.store }
        ensures handle { SameHandle self.old self.new }
        ensures remembers { self.old.fault ≡ None → Remembers result self.new.fault }
    {
        if let Some(fault) = self.fault {
            return Err(fault);
        }
        let result = step(&mut self.store, self.tree);
        if let Err(fault) = &result {
            self.note(fault);
        }
        result
    }

    // Keeps what an update left, and counts it.
    fn keep(&mut self, updated: Updated) -> Marks
        ensures marks { result ≡ updated.marks }
        ensures tree { self.new.tree ≡ updated.tree }
        ensures tally { self.new.tally ≡ one_more self.old.tally }
        ensures same { (self.new.store ≡ self.old.store) × (self.new.header ≡ self.old.header) × (self.new.fault ≡ self.old.fault) }
    {
        self.tree = updated.tree;
        self.tally = self.tally.saturating_add(1);
        updated.marks
    }

    // Puts a pair in: refused where the key is present, then at the key limit, then for want of blocks.
    pub fn insert(&mut self, key: &K, handle: u64) -> Result<Marks, Fault>
        ensures repeats { IfSome self.old.fault (λ f. (result ≡ Err f) × (self.new ≡ self.old)) }
        ensures updates { Updates (kind K.width K.order K.packed K.unpacked) S.meaning S.ready (adds key.now handle) self.old result self.new }
    {
        let header = self.header;
        let updated = self.step(|store, tree| put_in(store, header, tree, key, handle))?;
        Ok(self.keep(updated))
    }

    // Takes a key out: refused where it is absent.
    pub fn delete(&mut self, key: &K) -> Result<Marks, Fault>
        ensures repeats { IfSome self.old.fault (λ f. (result ≡ Err f) × (self.new ≡ self.old)) }
        ensures updates { Updates (kind K.width K.order K.packed K.unpacked) S.meaning S.ready (drops key.now) self.old result self.new }
    {
        let header = self.header;
        let updated = self.step(|store, tree| take_out(store, header, tree, key))?;
        Ok(self.keep(updated))
    }

    // The handle of a key, or nothing.
    pub fn find(&mut self, key: &K) -> Result<Option<u64>, Fault>
        ensures repeats { IfSome self.old.fault (λ f. (result ≡ Err f) × (self.new ≡ self.old)) }
        ensures answers { Queried (kind K.width K.order K.packed K.unpacked) S.meaning S.ready (plain_find K.order key.now) self.old result self.new }
        ensures handle { SameHandle self.old self.new }
    {
        self.step(|store, tree| find(store, tree.header.root, key))
    }

    // The pair with the largest key at most this one, or nothing.
    pub fn floor(&mut self, key: &K) -> Result<Option<Pair<K>>, Fault>
        ensures repeats { IfSome self.old.fault (λ f. (result ≡ Err f) × (self.new ≡ self.old)) }
        ensures answers { Queried (kind K.width K.order K.packed K.unpacked) S.meaning S.ready (plain_floor K.order key.now) self.old result self.new }
        ensures handle { SameHandle self.old self.new }
    {
        self.step(|store, tree| floor(store, tree.header.root, key))
    }

    // How many keys are below this one.
    pub fn rank(&mut self, key: &K) -> Result<u64, Fault>
        ensures repeats { IfSome self.old.fault (λ f. (result ≡ Err f) × (self.new ≡ self.old)) }
        ensures answers { Queried (kind K.width K.order K.packed K.unpacked) S.meaning S.ready (plain_rank K.order key.now) self.old result self.new }
        ensures handle { SameHandle self.old self.new }
    {
        self.step(|store, tree| rank(store, tree.header.root, key))
    }

    // Writes the pairs from `low` to `high`, as many as fit, and says how many there are.
    pub fn report(
        &mut self,
        low: &K,
        high: &K,
        keys: &mut [K],
        handles: &mut [u64],
    ) -> Result<u64, Stopped>
        ensures repeats { IfSome self.old.fault (λ f. (result ≡ Err (record { fault = f; written = 0 })) × (self.new ≡ self.old) × (keys.new ≡ keys.old) × (handles.new ≡ handles.old)) }
        ensures uneven { self.old.fault ≡ None → length keys.old ≢ length handles.old → (result ≡ Err (record { fault = own_refusal Uneven; written = 0 })) × (self.new ≡ self.old) × (keys.new ≡ keys.old) × (handles.new ≡ handles.old) }
        ensures reports { length keys.old ≡ length handles.old → Reports (kind K.width K.order K.packed K.unpacked) S.meaning S.ready low.now high.now keys.old handles.old keys.new handles.new self.old result self.new }
        ensures handle { SameHandle self.old self.new }
    {
        if let Some(fault) = self.fault {
            return Err(Stopped::from(fault));
        }
        let root = self.tree.header.root;
        let result = report(&mut self.store, root, low, high, keys, handles);
        if let Err(stopped) = &result {
            self.note(&stopped.fault);
        }
        result
    }

    // How many updates were accepted since the index was made.
    pub fn tally(&self) -> Result<u64, Fault>
        ensures repeats { IfSome self.now.fault (λ f. result ≡ Err f) }
        ensures value { self.now.fault ≡ None → result ≡ Ok self.now.tally }
    {
        match self.fault {
            Some(fault) => Err(fault),
            None => Ok(self.tally),
        }
    }
}
