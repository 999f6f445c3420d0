//! The texts of `--help` and `--version`.

/// What `ntfs_shell --help` prints.
pub const HELP: &str = "\
usage: ntfs_shell IMAGE WORDS

Works on the NTFS 3.1 volume in the file or block device IMAGE, which is opened
for reading and writing. Where IMAGE may only be read, and no format is asked, it
is opened for reading alone, and an edit fails as a failure of IMAGE.

Words:
  boot                                 prints the geometry of the volume
  label                                prints the volume's name and version
  check                                prints whether the volume is sound
  format SECTORS CLUSTER SERIAL LABEL  makes a new volume; what IMAGE held is lost
  run                                  answers the script on standard input
  make N SEED                          runs N commands drawn from SEED

run takes each line of standard input in order, settles IMAGE and prints the reply:
some lines and ok, or no with a number and a name, as no 4 NotFound. An empty line
and one that begins with # have none. These commands read: ls, stat, links, cat,
read, streams, attr, sec, sd, reparse, objid, df, open, hread and close; time sets
the moment that edits write, setattr PATH FLAGS the DOS flags of a file, in four
hexadecimal digits, setsec PATH ID its security id where it has a place for one,
each with its time of record change; write TARGET AT HEX and hwrite H AT HEX put
bytes over bytes of a stream that stand in clusters. Of a stream that stands in a
record of its file punch TARGET AT LEN puts zeros over bytes, and where that is the
only record of the file write and hwrite put bytes into it, over its own or right
behind these, and move it into clusters where its record has no room, truncate
TARGET SIZE cuts or lengthens it, there or within the last cluster that it would
fill, and rmstream PATH:NAME removes it. Of a stream of such a file in clusters
truncate cuts it, or lengthens it within its last cluster, rmstream removes it, and
write and hwrite put bytes right behind those that were written, into new clusters
too. All new clusters of a line have to be free one behind the other. create PATH
makes an empty file, and mkdir PATH a directory, where the index of the directory
in which it comes has room for the name as it stands, and a record of the table is
free that was written. All other edits are no 28 Unbuilt.
The first edit of a run marks the volume as not closed until the run ends, and
empties its log; a hibernated system is not recognised, so shut it down before.
A volume that check refuses is refused in the same words.

make runs N commands, 1000000 at most, that SEED tells, each as run does a line,
and prints made N OKS NOS, how many were done and how many refused, and the line
of df. Standard input is not read.

check prints sound, or the first clause that fails and a number N, as refused S7 N:
  S1   the boot sector is right; N counts its seven tests
  S2   record 0 tells where the table of records lies; N is 0
  S3   record N opens, and every length and place in it is right
  S4   record N has the attributes that it has to have, in order
  S5   the attribute list of record N names each part of the file once
  S6   the extents and sizes of the streams of record N fit each other
  S7   cluster N lies on the volume and has one owner at most; 0 is $Boot's
  S8   the bitmap of clusters is right about cluster N
  S9   the bitmap of records is right about record N
  S10  the references in record N lead to the records that they mean
  S11  record N has as many names as it counts, DOS names have their partners,
       a directory has one, and the way up from it leads to the root
  S13  the table of case is whole; N is 10; asked before S12
  S12  the indexes of record N are whole and list the names in a directory
  S14  record 3 tells version 3.1, and the records 0 to 3 have equal copies in
       the mirror, which lies where the boot sector says
  S15  no stream of record N is longer than 1099511627776 bytes
or refused dirty, where all of them hold and the volume was not closed.

Numbers are decimal. format takes 2048 sectors or more, as many as IMAGE has at
most, clusters of 512, 1024, 2048 or 4096 bytes, and a label of 1 to 32 units.
The tools of ntfs-3g open and list such a volume. ntfs-3g mounts it and warns that
its log is small; it creates nothing in it, as may be expected of a driver that
needs $AttrDef, which is empty. Nothing is claimed of Windows.

An answer goes to standard output, and a line on what went wrong to standard
error, also behind a run where a line was no 1 Syntax. The status is 0 where all
was done, 2 where the words are not known, 3 where the volume or an option is
refused, 4 where standard input failed, 5 where standard output failed, 6 where
IMAGE cannot be opened or failed, 7 where memory ran out, and 8 where the script
has more than 1073741824 bytes.

  ntfs_shell --help       prints this text
  ntfs_shell --version    prints the version
";

/// What `ntfs_shell --version` prints.
pub const VERSION: &str = "ntfs_shell 0.1.0\n";
