//! What commands that read are answered over a tree in plain lists.
ghost use Rattle.std.specs.Prelude.{◌≡◌, [], Some, find, map, option_map};
ghost use Rattle.ntfs_def.specs.KeyOrder.{fold_of};
ghost use Rattle.tree_model.specs.Answers.{is_unnamed_object_id, shown_link_count, ls_line, object_id, shown_stream};
ghost use Rattle.tree_model.specs.Cases.{size_of};
ghost use Rattle.plain_tree.specs.Plain.{TellsDue, df_of, is_called, is_plain, lent, lent_bytes};
ghost use Rattle.tree_model.specs.Shown.{Tells, cat_of, kept_apart, links_of, ls_of, file_at, read_of, reparse_of};
ghost use Rattle.plain_tree.specs.Plain.{lent_file, lent_listed, tree_of};
ghost use Rattle.tree_model.specs.Shown.{looked, stream_of};
ghost use Rattle.tree_model.specs.Shown.{unless_apart};
ghost use Rattle.std.specs.Option.{option_map_or};
ghost use Rattle.tree_model.specs.Paths.{and_then};
ghost use Rattle.tree_model.specs.declared.command.Command.TheVariants as c;
ghost use Rattle.tree_model.specs.Subjects.{content_named, is_directory, stream_name};
ghost use Rattle.tree_model.specs.Tree.{sought_stream};
ghost use Rattle.tree_model.specs.declared.reply.No.TheVariants as no;
ghost use Rattle.std.specs.Prelude.{IfOk, IfErr, IsTrue};

use crate::copies::{copied, copied_name};
use crate::facts::PlainFacts;
use crate::tree::PlainTree;
use ntfs_def::kinds::OBJECT_ID;
use ntfs_def::records::ROOT;
use std::alloc::Global;
use tree_model::{
    Answer, Command, Content, Link, No, Node, OpenEntry, Path, RawAttr, ShownStream, ShownStreams,
    Stream, is_wide, range,
};
use vol_bytes::Name;

impl PlainTree {
    // The file that a path leads to, by its number, and its node.
    fn file_at(&self, path: &Path) -> Result<(u64, Option<&Node>), No>
        ensures { lent_file result ≡ file_at (tree_of self.now) path.now }
    {
        let file = match self.resolve(path) {
            Ok(Some(link)) => link.child,
            Ok(None) => ROOT,
            Err(refused) => return Err(refused),
        };
        Ok((file, self.node(file)))
    }

    /// What `ls` lists of a link: whether it leads to a directory, and the link, whose name is shown. DOS names and hidden
    /// links are not listed.
    pub fn ls_line<'t>(&self, link: &'t Link) -> Option<(bool, &'t Link)>
        ensures { lent_listed result ≡ ls_line (tree_of self.now) link.now }
    {
        if link.is_dos() {
            return None;
        }
        let node = self.shown_node(link)?;
        Some((node.dir, link))
    }

    // The first of some streams that has this name.
    fn first_stream<'t>(
        &self,
        streams: &'t [Stream],
        name: &[u16],
        exact: bool,
    ) -> Option<&'t Stream>
        ensures { lent result ≡ find (λ stream. is_called (fold_of self.now.case) exact stream.name name.now) streams.now }
    {
        'streams: for stream in streams {
            if self.is_called(stream.name.as_slice(), name, exact) {
                return Some(stream);
            }
        }
        None
    }

    // The stream that is sought by a name: the exact one, else the first of the same name.
    fn stream<'t>(&self, streams: &'t [Stream], name: &[u16]) -> Option<&'t Stream>
        ensures { lent result ≡ sought_stream (fold_of self.now.case) streams.now name.now }
    {
        match self.first_stream(streams, name, true) {
            Some(stream) => Some(stream),
            None => self.first_stream(streams, name, false),
        }
    }

    // What a stream of a file holds.
    fn content<'t>(&self, node: Option<&'t Node>, name: &[u16]) -> Option<&'t Content>
        ensures { lent result ≡ content_named (tree_of self.now) name.now (lent node.entry) }
    {
        match node {
            None => None,
            Some(node) => held(self.stream(node.streams.as_slice(), name)),
        }
    }

    // The bytes of a stream that is not packed.
    fn stream_bytes<'t>(&self, node: Option<&'t Node>, name: &[u16]) -> Result<&'t [u8], No>
        ensures { lent_bytes result ≡ stream_of (tree_of self.now) name.now (lent node.entry) }
    {
        if name.is_empty() && is_directory(node) {
            return Err(No::IsDir);
        }
        match self.content(node, name) {
            None => Err(No::NoStream),
            Some(Content::Packed(_)) => Err(No::Packed),
            Some(Content::Plain(bytes)) => Ok(bytes.as_slice()),
        }
    }

    // The names of a file that are no DOS names.
    fn shown_link_count(&self, file: u64) -> u64
        ensures { result ≡ shown_link_count (tree_of self.now) file }
    {
        let mut count = 0;
        'links: for link in &self.links {
            if link.child == file && !link.is_dos() {
                count += 1;
            }
        }
        count
    }
}

impl PlainTree {
    fn stat(&self, path: &Path) -> Result<Answer, No>
        ensures { result ≡ and_then (file_at (tree_of self.now) path.now) (looked (tree_of self.now) (c.Stat path.now)) }
    {
        let (file, node) = match self.file_at(path) {
            Ok((file, Some(node))) => (file, node),
            Ok((_, None)) => return Ok(Answer::Done),
            Err(refused) => return Err(refused),
        };
        Ok(Answer::Stat {
            dir: node.dir,
            links: self.shown_link_count(file),
            size: self.size(node),
            flags: node.flags,
            security: node.security,
            created: node.times[0],
            modified: node.times[1],
            changed: node.times[2],
            accessed: node.times[3],
        })
    }

    // The size of the unnamed stream, 0 without one.
    fn size(&self, node: &Node) -> u64
        ensures { result ≡ option_map_or size_of (content_named (tree_of self.now) [] (Some node.now)) 0 }
    {
        match self.content(Some(node), &[]) {
            None => 0,
            Some(content) => size_of(content),
        }
    }

    fn attr(&self, path: &Path) -> Result<Answer, No>
        ensures { result ≡ and_then (file_at (tree_of self.now) path.now) (looked (tree_of self.now) (c.Attr path.now)) }
    {
        match self.file_at(path) {
            Ok((_, Some(node))) => Ok(Answer::Attr(node.flags)),
            Ok((_, None)) => Ok(Answer::Done),
            Err(refused) => Err(refused),
        }
    }

    fn sec(&self, path: &Path) -> Result<Answer, No>
        ensures { result ≡ and_then (file_at (tree_of self.now) path.now) (looked (tree_of self.now) (c.Sec path.now)) }
    {
        match self.file_at(path) {
            Ok((_, Some(node))) => Ok(Answer::Sec(node.security)),
            Ok((_, None)) => Ok(Answer::Done),
            Err(refused) => Err(refused),
        }
    }

    fn cat(
        &self,
        alloc: Global,
        opens: &[OpenEntry],
        path: &Path,
        stream: &[u16],
    ) -> Result<Answer, No>
        ensures { Tells (and_then (file_at (tree_of self.now) path.now) (cat_of (tree_of self.now) opens.now stream.now)) result }
    {
        let (file, node) = match self.file_at(path) {
            Ok((file, node)) => (file, node),
            Err(refused) => return Err(refused),
        };
        let bytes = match self.stream_bytes(node, stream) {
            Ok(bytes) => bytes,
            Err(refused) => return Err(refused),
        };
        if bytes.len() > 65_536 {
            return Err(No::TooBig);
        }
        data(alloc, opens, file, bytes)
    }
}

impl PlainTree {
    fn read(
        &self,
        alloc: Global,
        opens: &[OpenEntry],
        path: &Path,
        stream: &[u16],
        at: u64,
        len: u64,
    ) -> Result<Answer, No>
        ensures { Tells (and_then (file_at (tree_of self.now) path.now) (read_of (tree_of self.now) opens.now stream.now at len)) result }
    {
        let (file, node) = match self.file_at(path) {
            Ok((file, node)) => (file, node),
            Err(refused) => return Err(refused),
        };
        let bytes = match self.stream_bytes(node, stream) {
            Ok(bytes) => bytes,
            Err(refused) => return Err(refused),
        };
        if is_wide(at, len) {
            return Err(No::TooBig);
        }
        data(alloc, opens, file, range(bytes, at, len))
    }

    fn streams(&self, alloc: Global, path: &Path) -> Result<Answer, No>
        ensures { Tells (and_then (file_at (tree_of self.now) path.now) (looked (tree_of self.now) (c.Streams path.now))) result }
    {
        let node = match self.file_at(path) {
            Ok((_, Some(node))) => node,
            Ok((_, None)) => return Ok(Answer::Done),
            Err(refused) => return Err(refused),
        };
        match shown_streams(alloc, node.streams.as_slice()) {
            Ok(shown) => Ok(Answer::Streams(shown)),
            Err(refused) => Err(refused),
        }
    }

    fn objid(&self, alloc: Global, path: &Path) -> Result<Answer, No>
        ensures { Tells (and_then (file_at (tree_of self.now) path.now) (looked (tree_of self.now) (c.Objid path.now))) result }
    {
        let node = match self.file_at(path) {
            Ok((_, Some(node))) => node,
            Ok((_, None)) => return Ok(Answer::Done),
            Err(refused) => return Err(refused),
        };
        match copied(alloc, object_id(node)) {
            Ok(bytes) => Ok(Answer::ObjectId(bytes)),
            Err(refused) => Err(refused),
        }
    }

    fn reparse(&self, alloc: Global, path: &Path) -> Result<Answer, No>
        ensures { Tells (and_then (file_at (tree_of self.now) path.now) reparse_of) result }
    {
        let node = match self.file_at(path) {
            Ok((_, Some(node))) => node,
            Ok((_, None)) => return Err(No::NoReparse),
            Err(refused) => return Err(refused),
        };
        let Some(point) = &node.point else {
            return Err(No::NoReparse);
        };
        match copied(alloc, point.bytes.as_slice()) {
            Ok(bytes) => Ok(Answer::Reparse {
                tag: point.tag,
                bytes,
            }),
            Err(refused) => Err(refused),
        }
    }

    fn ls(&self, alloc: Global, path: &Path) -> Result<Answer, No>
        ensures { Tells (and_then (file_at (tree_of self.now) path.now) (ls_of (tree_of self.now))) result }
    {
        let (file, node) = match self.file_at(path) {
            Ok((file, node)) => (file, node),
            Err(refused) => return Err(refused),
        };
        if !is_directory(node) {
            return Err(No::NotDir);
        }
        match self.listing(alloc, file) {
            Ok(lines) => Ok(Answer::List(lines)),
            Err(refused) => Err(refused),
        }
    }

    fn links(&self, alloc: Global, path: &Path) -> Result<Answer, No>
        ensures { Tells (and_then (file_at (tree_of self.now) path.now) (links_of (tree_of self.now))) result }
    {
        let file = match self.file_at(path) {
            Ok((file, _)) => file,
            Err(refused) => return Err(refused),
        };
        match self.shown_links(alloc, file) {
            Ok(lines) => Ok(Answer::Links(lines)),
            Err(refused) => Err(refused),
        }
    }

    /// What a command that reads is answered, or why it is refused, beside the opens that are kept.
    /// Condition: it is `ls`, `links`, `stat`, `streams`, `attr`, `sec`, `objid`, `reparse`, `cat`, `read` or `df`.
    ///
    /// # Errors
    ///
    /// Those of walking the path, then `NotDir`, `IsDir`, `NoStream`, `NoReparse`, `Packed`, `TooBig` and `Shared`, in
    /// this order; and `Memory`.
    pub fn answer(
        &self,
        alloc: Global,
        opens: &[OpenEntry],
        facts: &PlainFacts,
        command: &Command,
    ) -> Result<Answer, No>
        requires { IsTrue (is_plain command.now) }
        ensures { TellsDue self.now opens.now facts.now command.now result }
    {
        match command {
            Command::Ls { path } => self.ls(alloc, path),
            Command::Links { path } => self.links(alloc, path),
            Command::Df => Ok(df(facts)),
            Command::Stat { path } => self.stat(path),
            Command::Streams { path } => self.streams(alloc, path),
            Command::Attr { path } => self.attr(path),
            Command::Sec { path } => self.sec(path),
            Command::Objid { path } => self.objid(alloc, path),
            Command::Reparse { path } => self.reparse(alloc, path),
            Command::Cat { path, stream } => self.cat(alloc, opens, path, stream_name(stream)),
            Command::Read {
                path,
                stream,
                at,
                len,
            } => self.read(alloc, opens, path, stream_name(stream), *at, *len),
            _ => unreachable!(),
        }
    }
}

// The first open of a file that does not share reading.
fn conflict(opens: &[OpenEntry], file: u64) -> Option<No>
    ensures { result ≡ kept_apart opens.now file }
{
    'opens: for entry in opens {
        if entry.file == file && !entry.share.r {
            return Some(No::Shared {
                session: entry.session,
                handle: entry.handle,
            });
        }
    }
    None
}

// Bytes of a file as an answer, unless an open of it does not share reading.
fn data(alloc: Global, opens: &[OpenEntry], file: u64, bytes: &[u8]) -> Result<Answer, No>
    ensures { Tells (unless_apart opens.now file bytes.now) result }
{
    if let Some(refused) = conflict(opens, file) {
        return Err(refused);
    }
    match copied(alloc, bytes) {
        Ok(bytes) => Ok(Answer::Data(bytes)),
        Err(refused) => Err(refused),
    }
}

fn df(facts: &PlainFacts) -> Answer
    ensures { result ≡ df_of facts.now }
{
    Answer::Df {
        clusters: facts.clusters,
        free: facts.free,
        records: facts.records,
        free_records: facts.free_records,
    }
}

// The unnamed stream has the empty name.
fn stream_name(stream: &Option<Name>) -> &[u16]
    ensures { result.now ≡ stream_name stream.now }
{
    match stream {
        None => &[],
        Some(name) => name.as_slice(),
    }
}

// A node's streams, as `streams` shows them.
fn shown_streams(alloc: Global, streams: &[Stream]) -> Result<ShownStreams, No>
    ensures ok { IfOk result (λ shown. shown ≡ map shown_stream streams.now) }
    ensures err { IfErr result (λ refused. refused ≡ no.Memory) }
{
    let mut shown = Vec::new(alloc);
    'streams: for stream in streams {
        shown.push(ShownStream {
            packed: matches!(stream.content, Content::Packed(_)),
            size: size_of(&stream.content),
            name: copied_name(alloc, &stream.name)?,
        })?;
    }
    Ok(ShownStreams::from_vec(shown))
}

// The first 16 bytes of the unnamed object id; none without one, and where it is packed.
fn object_id(node: &Node) -> &[u8]
    ensures { result.now ≡ object_id node.now }
{
    let Some(attribute) = first_object_id(node.others.as_slice()) else {
        return &[];
    };
    match &attribute.value {
        Content::Packed(_) => &[],
        Content::Plain(bytes) => {
            let bytes = bytes.as_slice();
            &bytes[..bytes.len().min(16)]
        }
    }
}

// The first unnamed object id among attributes.
fn first_object_id(attributes: &[RawAttr]) -> Option<&RawAttr>
    ensures { lent result ≡ find is_unnamed_object_id attributes.now }
{
    'attributes: for attribute in attributes {
        if attribute.kind == OBJECT_ID && attribute.name.as_slice().is_empty() {
            return Some(attribute);
        }
    }
    None
}

fn is_directory(node: Option<&Node>) -> bool
    ensures { result ≡ is_directory (lent node.entry) }
{
    match node {
        None => false,
        Some(node) => node.dir,
    }
}

// What a stream holds.
fn held(stream: Option<&Stream>) -> Option<&Content>
    ensures { lent result ≡ option_map (λ stream. stream.content) (lent stream.entry) }
{
    match stream {
        None => None,
        Some(stream) => Some(&stream.content),
    }
}

// The bytes of a stream, or its real size where it is packed.
fn size_of(content: &Content) -> u64
    ensures { result ≡ size_of content.now }
{
    match content {
        Content::Plain(bytes) => bytes.as_slice().len() as u64,
        Content::Packed(size) => *size,
    }
}
