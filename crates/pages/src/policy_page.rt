//! The page on policies: docs/policy.md, which `tests/pages.py --write` puts here.

/// The page's text.
pub const TEXT: &str = "# Writing a policy

A policy says what exists in a broker, and which rights may be granted to whom. It grants nothing by itself: a right is in force only once it was granted (`grant ..` in a script). A grant is made only where allow rows of the policy cover each of its rights and no deny row covers one. This page's example is `crates/brokerd/data/sample.toml`:

```console
$ brokerd check crates/brokerd/data/sample.toml
clients 2
agents 1
regions 2
signals 2
kernels 2
allows 6
ok
```

`brokerd run POLICY [NEXT..]` runs a script over it; NEXT are the files of at most 16 further policies, which the script may put in force ([below](#another-policy-for-a-broker-that-runs)).

`brokerd check POLICY --list` lists in place of the counts what a policy without a fault declares, with the numbers that packets and audits use, and the rights that its rows allow each client. `--json` writes the same for programs, on one line ([its members](json.md)):
```console
$ brokerd check crates/brokerd/data/sample.toml --list
KIND    NUMBER  NAME
client  1       alice
client  2       bob
agent   1       gpu    takes kernel,agent
region  1       buf    0000000100000000, 64 bytes
region  2       args   0000000200000000, 16 bytes
signal  1       done   begins at 1
signal  2       go     begins at 1
kernel  1       inc    &inc
kernel  2       spin   &spin

CLIENT  KIND    NUMBER  NAME   RIGHTS
alice   agent   1       gpu    USE
alice   region  1       buf    READ,WRITE
alice   region  2       args   READ,WRITE
alice   signal  1       done   WAIT,CHANGE
alice   signal  2       go     WAIT,CHANGE
alice   kernel  1       inc    LAUNCH
alice   kernel  2       spin   LAUNCH
bob     agent   1       gpu    USE
bob     region  1       buf    READ
```

## The file

A policy is a TOML file of at most 1,048,576 bytes. It may begin with `version = 1` or `version = 2`; without it the version is 1. All else is in arrays of tables, each of which may be absent or empty. Numbers count from 1 in the order of the rows, for clients and for each kind of object; packets and audits use these numbers.

| Array | Rows at most | Keys of a row |
|---|---|---|
| `[[client]]` | 64 | `name` |
| `[[agent]]` | 16 | `name`; `takes`: an array of `\"kernel\"` and `\"agent\"`, the dispatches that it takes (barrier packets are taken by all) |
| `[[region]]` | 64 | `name`; `length` in bytes, 1 to 16,777,216; all regions together at most 67,108,864 |
| `[[signal]]` | 1,024 | `name`; `initial`, the number with which it begins |
| `[[kernel]]` | 64 | `name`; `entry`, the kernel's name in the module, beginning with `&`; `text`, the module ([in a file](kernels.md#a-kernel-of-your-own)) |
| `[[allow]]` | 4,096 | `client`, a name or `\"*\"`; `kind`, one of `\"agent\"`, `\"region\"`, `\"signal\"`, `\"kernel\"`; `object`, a name or `\"*\"`; `rights`, an array |
| `[[deny]]`, in version 2 alone | 4,096 | those of `[[allow]]` |

A name is 1 to 64 ASCII letters, digits, `_` or `-`, and no two rows of an array share one. Each key has to be there, and no other key may be. Region h covers the addresses from `h * 2^32`: in the sample `buf` is region 1, and its first byte has the address `0000000100000000`.

## Rights

| Right | On | Permits |
|---|---|---|
| `USE` | agent | to open queues on the agent, and to have packets of these queues launched |
| `READ` | region | to read it: by the host, as the source of a COPY, for ADD64, as a kernel's argument block, and by a kernel's loads |
| `WRITE` | region | to write it: by the host, by FILL, COPY and ADD64, for their results, and by a kernel's stores |
| `WAIT` | signal | to load and test it, and to wait on it by barrier packets |
| `CHANGE` | signal | to change it, and to name it as a packet's completion signal |
| `LAUNCH` | kernel | to launch it by kernel dispatches (`docs/kernels.md`) |

An allow row covers a right where its `client` is the client or `\"*\"`, its `kind` and `object` are the object's (or `\"*\"`, all objects of the kind), and its `rights` have the right. Rows only add to each other, and their order doesn't matter. A row of the sample:

```
[[allow]]
client = \"bob\"
kind = \"region\"
object = \"buf\"
rights = [\"READ\"]
```

So `grant bob region buf READ` is answered `ok`, and `grant bob region buf WRITE` is `refused 5 NotAllowed`.

### Deny rows

In version 2 a deny row covers rights as an allow row does. Nothing that it covers is allowed, whatever allow rows say and wherever they stand. Here everybody may read and write all regions, but nobody may write `args`:

```
version = 2

[[allow]]
client = \"*\"
kind = \"region\"
object = \"*\"
rights = [\"READ\", \"WRITE\"]

[[deny]]
client = \"*\"
kind = \"region\"
object = \"args\"
rights = [\"WRITE\"]
```

Then `grant alice region args READ` is answered `ok`, and `grant alice region args READ,WRITE` is `refused 5 NotAllowed`. In a file of version 1 the array isn't known: `policy: 3 BadValue`. `brokerd check` counts deny rows in files of version 2 alone, in a line `denies N` after `allows N`.

### Another policy for a broker that runs

While a broker runs, it can be changed what may be granted, and not what may exist. The line `reload N` of a script hands in the N-th of the further policies that the command line names (a program may hand in any, by `reload` of the core or `hd_reload`). To take from bob what the sample allows him on `buf`, write the sample once more, with `version = 2` first and a deny row last:

```toml file=deny.toml
[[deny]]
client = \"bob\"
kind = \"region\"
object = \"buf\"
rights = [\"READ\"]
```
```text file=reload.script
grant bob region buf READ
reload 1
list bob
grant bob region buf READ
audit
```
```console
$ (echo 'version = 2'; cat crates/brokerd/data/sample.toml deny.toml) > next.toml
$ brokerd run crates/brokerd/data/sample.toml next.toml < reload.script
ok
ok
list 0
refused 5 NotAllowed
audit 2
1 grant bob region 1 READ
2 reload
```

From the reload on the new rows decide:

- Each right in force that they don't allow is taken, from every client.
- Each grant is asked of them.
- Nothing is granted by itself: a right that one reload took doesn't come back with the next.

A reload is refused, and changes nothing:

- `refused 16 OtherObjects`, where the policy doesn't declare the same clients and objects, in the same order and with the same keys: a region of another length, a kernel with a blank more in its text. Only the order in `takes` may be another. Versions and rows aren't compared.
- `refused 4 Busy queue Q packet ID`, where a packet in flight holds a right that the rows don't allow: the one named has the least queue and id of all clients' packets. Bring it to its end, then reload.
- `refused 10 AuditFull`, as every call that leaves an entry; `refused 0 OutOfMemory`, where there is no memory for the copy of the policy.

A client whose `USE` on an agent was cut keeps its queues. The next packet that is judged in such a queue is denied, by rule L4 unless its bytes break one of L1 to L3, and that stops the queue. So with every right: a launched packet holds what it needs until it is released, and one that waits in a ring is judged by what is in force when it is taken. So give each client the least that its packets need.

Each further policy is read in full before the script begins, in the order of the files and after all faults of the first policy and its kernels; one that is written later can't come in. Its first fault is told as that of any policy. The texts of its kernels aren't read, since a policy with another text is refused.

## When a packet is denied

A denied packet stops its queue, and the error names the first rule that failed, as `queue 1 packet 0 rule L8` ([each rule, with what helps](scripts.md#a-packet-is-denied)). For L4, L6 and L8 to L10 a grant is missing that has to be in force when the packet is taken, or the object isn't declared.

If a grant is answered `refused 5 NotAllowed`, the policy wants an allow row more, or a deny row less. The same page has [each refusal](scripts.md#a-line-is-refused). Each call tries them in an order of its own (`crates/core_model/specs/Owed.antt`), 10 after all others but 0.

## When a policy is refused

`brokerd` writes the first fault to standard error, as `policy: N NAME KIND ROW`, and ends with status 1. KIND is the array and ROW the row, from 1; row 0 is the array as a whole. Faults before the arrays have neither.

| Fault | Means | What helps |
|---|---|---|
| 1 NotToml | the file isn't UTF-8 text in TOML; numbers past 64 bits are refused so too | mend the TOML, or its UTF-8 |
| 2 MissingKey | a row lacks a key | add it |
| 3 BadValue | a key that isn't known (as `deny` in version 1), a value that isn't right for its key, another version, or an array that isn't one of tables | take out the key, or mend the value; `version` is 1 or 2, and `deny` rows want 2 |
| 4 UnknownName | an allow or deny row names a client or an object that isn't declared | declare it, or name another |
| 5 DoubleName | a row has the name of an earlier row of its array | give one of the two another name |
| 6 TooMany | the file is too long, an array has too many rows, or the regions are too long together (region, row 0) | fewer rows, a shorter file, or smaller regions |

They are looked for in this order: the length of the file, its form, its version and keys, and then the arrays in the order of the table above, row by row. In a row, unknown keys come first, then each key in the table's order, then the name. So the sample with a further allow row for the object `nosuch` is refused with `policy: 4 UnknownName allow 7`.

The kernels' texts are read and checked after the policy itself, in order; the first that fails is named, as `kernel 1: check 3 line 4` ([its causes](kernel_text.md#faults-of-a-text)). `brokerd run` asks more than `brokerd check`: each module has to have a kernel of its entry's name. The first that has none (`check` tells of it on standard error) is named as `kernel 1: no entry`, after all other faults of the policy and its kernels, and before those of further policies and any reply.

## What reading and asking cost

None of this is proved; it is what the code in `crates/policy/src` and `crates/grants/src` does.

**Reading** is done once, before the first reply, and stops at the first fault. A file over 2^20 bytes is refused by its length alone. Else it is parsed into a tree, and each array is gone through once, its rows counted first. At most the file, its tree and the policy are in memory together. Names are looked up by a hash with a fixed seed: who picks them can make them collide, and a look-up then compares with each, 1,024 at most.

**Asking** takes no memory. A number is the place of its row. `allows` walks over all allow and deny rows; `declares_as` compares all names and what the rows hold, kernel texts among them. A grant asks neither, but a table of what the rows allow each client on each object, made at a broker's opening and by each reload. No packet asks the policy: a launch looks at the rights in force.
";
