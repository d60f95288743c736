// The root: nodes by the high ten bits of the numbers of their pages. Tables share roots, and each gets its own on the
// way to a store.
ghost use Rattle.std.specs.Prelude.{◌≡◌, ◌<◌, ◌^◌, [], IfOk, OnErr, OnOk, Some};
ghost use Rattle.std.specs.Option.{option_copied, option_map};
ghost use Rattle.cow_pages.specs.Tree.{entry_put, leaf, leaf_of, leaf_put, leaf_without, slots_of, slots_without};

use crate::level_entries::grow;
use crate::node::Node;
use crate::shared_page::SharedPage;
use dp_base::OutOfMemory;
use std::alloc::Global;
use std::marker::Model;
use std::sync::Arc;

#[derive(Drop)]
pub(crate) struct Nodes {
    nodes: Vec<Option<Node>>,
}

impl Model for Nodes {
    ghost use Rattle.std.specs.Prelude.{List, Option};
    ghost use Rattle.dp_base.specs.declared.page.Page.{Page};

    ghost Value = { List (Option (List (Option Page))) };

    ghost view = { λ n. n.nodes.items };
}

#[derive(Drop)]
pub(crate) struct Root {
    nodes: Arc<Nodes, Global>,
}

impl Model for Root {
    ghost use Rattle.std.specs.Prelude.{List, Option};
    ghost use Rattle.dp_base.specs.declared.page.Page.{Page};
    ghost use Rattle.std.specs.Arc.{arc_value};

    ghost Value = { List (Option (List (Option Page))) };

    ghost view = { λ r. arc_value r.nodes };
}

impl Nodes {
    #[inline(always)]
    fn at(&self, number: u32) -> Option<&SharedPage>
        ensures { option_copied result ≡ leaf self.now number }
    {
        match self.nodes.get((number / 1024) as usize) {
            Some(Some(node)) => node.at((number % 1024) as usize),
            _ => None,
        }
    }

    // Equal nodes, which are the same in memory.
    fn copy(&self, alloc: Global) -> Result<Nodes, OutOfMemory>
        ensures { IfOk result (λ copy. copy ≡ self.now) }
    {
        let nodes = shared(alloc, &self.nodes)?;
        Ok(Nodes { nodes })
    }

    fn put(&mut self, alloc: Global, page: SharedPage) -> Result<(), OutOfMemory>
        ensures ok { OnOk result (self.new ≡ leaf_put page self.old) }
        ensures err { OnErr result (self.new ≡ self.old) }
    {
        put_at(&mut self.nodes, alloc, page)
    }

    fn take(&mut self, alloc: Global, number: u32) -> Result<Option<SharedPage>, OutOfMemory>
        ensures page { IfOk result (λ page. page ≡ leaf self.old number) }
        ensures ok { OnOk result (self.new ≡ leaf_without number self.old) }
        ensures err { OnErr result (self.new ≡ self.old) }
    {
        take_at(&mut self.nodes, alloc, number)
    }
}

fn shared(alloc: Global, nodes: &[Option<Node>]) -> Result<Vec<Option<Node>>, OutOfMemory>
    ensures { IfOk result (λ copy. copy.items ≡ nodes.now) }
{
    let mut copy = Vec::with_capacity(alloc, nodes.len())?;
    'nodes: for node in nodes {
        copy.push(share_node(node)?)?;
    }
    Ok(copy)
}

#[inline(always)]
fn share_node(node: &Option<Node>) -> Result<Option<Node>, OutOfMemory>
    ensures { IfOk result (λ copy. copy ≡ node.now) }
{
    match node {
        Some(node) => Ok(Some(node.share()?)),
        None => Ok(None),
    }
}

fn put_at(nodes: &mut Vec<Option<Node>>, alloc: Global, page: SharedPage) -> Result<(), OutOfMemory>
    ensures ok { OnOk result (nodes.new.items ≡ leaf_put page nodes.old.items) }
    ensures err { OnErr result (nodes.new.items ≡ nodes.old.items) }
{
    let number = page.number();
    let index = (number / 1024) as usize;
    let place = (number % 1024) as usize;
    match nodes.get_mut(index) {
        Some(node) => put_node(node, alloc, place, page),
        None => put_past(nodes, alloc, index, place, page),
    }
}

fn put_node(
    node: &mut Option<Node>,
    alloc: Global,
    place: usize,
    page: SharedPage,
) -> Result<(), OutOfMemory>
    requires { place < 1024 }
    ensures ok { OnOk result (node.new ≡ Some (entry_put place page (slots_of node.old))) }
    ensures err { OnErr result (node.new ≡ node.old) }
{
    match node {
        Some(node) => node.put(alloc, place, page),
        None => {
            *node = Some(Node::new(alloc, place, page)?);
            Ok(())
        }
    }
}

// Puts a page into a node of its own.
#[tactic(auto, using(crate::proofs::EntryChanges::put_entry))]
fn put_past(
    nodes: &mut Vec<Option<Node>>,
    alloc: Global,
    index: usize,
    place: usize,
    page: SharedPage,
) -> Result<(), OutOfMemory>
    requires index { index < 2 ^ 32 }
    requires place { place < 1024 }
    ensures ok { OnOk result (nodes.new.items ≡ entry_put index (entry_put place page []) nodes.old.items) }
    ensures err { OnErr result (nodes.new.items ≡ nodes.old.items) }
{
    let node = Node::new(alloc, place, page)?;
    grow(nodes, index + 1)?;
    nodes[index] = Some(node);
    Ok(())
}

fn take_at(
    nodes: &mut Vec<Option<Node>>,
    alloc: Global,
    number: u32,
) -> Result<Option<SharedPage>, OutOfMemory>
    ensures page { IfOk result (λ page. page ≡ leaf nodes.old.items number) }
    ensures ok { OnOk result (nodes.new.items ≡ leaf_without number nodes.old.items) }
    ensures err { OnErr result (nodes.new.items ≡ nodes.old.items) }
{
    match nodes.get_mut((number / 1024) as usize) {
        Some(node) => take_node(node, alloc, (number % 1024) as usize),
        None => Ok(None),
    }
}

fn take_node(
    node: &mut Option<Node>,
    alloc: Global,
    place: usize,
) -> Result<Option<SharedPage>, OutOfMemory>
    ensures page { IfOk result (λ page. page ≡ leaf_of node.old place) }
    ensures ok { OnOk result (node.new ≡ option_map (slots_without place) node.old) }
    ensures err { OnErr result (node.new ≡ node.old) }
{
    match node {
        Some(node) => node.take(alloc, place),
        None => Ok(None),
    }
}

impl Root {
    // A root of no nodes.
    pub(crate) fn new(alloc: Global) -> Result<Root, OutOfMemory>
        ensures { IfOk result (λ root. root ≡ []) }
    {
        Root::of_nodes(
            alloc,
            Nodes {
                nodes: Vec::new(alloc),
            },
        )
    }

    fn of_nodes(alloc: Global, nodes: Nodes) -> Result<Root, OutOfMemory>
        ensures { IfOk result (λ root. root ≡ nodes) }
    {
        match Arc::new(alloc, nodes) {
            Ok(nodes) => Ok(Root { nodes }),
            Err(_) => Err(OutOfMemory),
        }
    }

    // An equal root, which is the same in memory.
    pub(crate) fn share(&self) -> Result<Root, OutOfMemory>
        ensures { IfOk result (λ root. root ≡ self.now) }
    {
        let nodes = Arc::try_clone(&self.nodes)?;
        Ok(Root { nodes })
    }

    // The page with a number.
    #[inline(always)]
    pub(crate) fn at(&self, number: u32) -> Option<&SharedPage>
        ensures { option_copied result ≡ leaf self.now number }
    {
        let nodes: &Nodes = &self.nodes;
        nodes.at(number)
    }

    // Puts a page at its number. An `Err` changes nothing.
    pub(crate) fn put(&mut self, alloc: Global, page: SharedPage) -> Result<(), OutOfMemory>
        ensures ok { OnOk result (self.new ≡ leaf_put page self.old) }
        ensures err { OnErr result (self.new ≡ self.old) }
    {
        match Arc::get_mut(&mut self.nodes) {
            Some(nodes) => nodes.put(alloc, page),
            None => {
                let shared: &Nodes = &self.nodes;
                let mut nodes = shared.copy(alloc)?;
                nodes.put(alloc, page)?;
                *self = Root::of_nodes(alloc, nodes)?;
                Ok(())
            }
        }
    }

    // Takes the page with a number out, if there is one. An `Err` changes nothing.
    pub(crate) fn take(
        &mut self,
        alloc: Global,
        number: u32,
    ) -> Result<Option<SharedPage>, OutOfMemory>
        ensures page { IfOk result (λ page. page ≡ leaf self.old number) }
        ensures ok { OnOk result (self.new ≡ leaf_without number self.old) }
        ensures err { OnErr result (self.new ≡ self.old) }
    {
        match Arc::get_mut(&mut self.nodes) {
            Some(nodes) => nodes.take(alloc, number),
            None => {
                let shared: &Nodes = &self.nodes;
                let mut nodes = shared.copy(alloc)?;
                let page = nodes.take(alloc, number)?;
                *self = Root::of_nodes(alloc, nodes)?;
                Ok(page)
            }
        }
    }
}
