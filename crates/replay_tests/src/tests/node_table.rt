// Days on which nodes are lost and join again. They are written as the days of `table`; behind `!` stand calls that fail, each as a
// node of the first issue and the number of its call; `>99` is a line that stands 99 times; two dots stand for lines that are not
// compared; and behind `@` stand the status and how many records the nodes of the first issue hold in the end.

/// Losses and rejoins that the script asks for.
pub(super) const LOSSES: &str = "# A node is lost, joins again and has all records; another is lost.
> g1 AAAA crash 0
> g1 AAAA clock 09:00:00
> g1 AAAA order p1 buy 19000 100
> g1 AAAA rejoin 0
> g1 AAAA rejoin 0
> g1 AAAA crash 1
> g1 AAAA crash 1
market 1
issue AAAA base 20000 unit 100 low 15000 high 25000 prices 1001
0 g1 0 crash 0
= out 0
1 g1 1 clock 09:00:00.000
due 08:00:00.000
phase collecting
due 09:00:00.000
phase trading
auction 20000 19500 20500
calm - -
= moment 2
2 g1 2 order p1 buy 19000 100
= accepted 2 0 100
3 g1 3 rejoin 0
= joined 0
4 g1 4 rejoin 0
= refused 8 0
5 g1 5 crash 1
= out 1
6 g1 6 crash 1
= refused 7 1
nodes synchronised lost synchronised
total AAAA entries 7 trades 0 shares 0 last 20000
end
@ 0 7 0 7

# The last synchronised node is lost: the issue is halted, and nothing is kept.
> g1 AAAA crash 0
> g1 AAAA clock 09:00:00
> g1 AAAA order p1 buy 19000 100
> g1 AAAA rejoin 0
> g1 AAAA rejoin 0
> g1 AAAA crash 1
> g1 AAAA crash 1
> g1 AAAA crash 2
> g1 AAAA crash 0
> g1 AAAA order p1 buy 19000 100
..
6 g1 6 crash 1
= refused 7 1
7 g1 7 crash 2
= out 2
halted g1 8 crash 0
nodes lost lost lost
total AAAA entries 8 trades 0 shares 0 last 20000
end
@ 6 0 0 0

# A node that joins takes the journal in pieces of 64 records.
> g1 AAAA crash 0
>99 g1 AAAA clock 08:00:00
> g1 AAAA rejoin 0
..
100 g1 100 rejoin 0
= joined 0
nodes joining synchronised synchronised
total AAAA entries 101 trades 0 shares 0 last 20000
end
@ 0 64 101 101

# The next entry brings it the rest.
> g1 AAAA crash 0
>99 g1 AAAA clock 08:00:00
> g1 AAAA rejoin 0
> g1 AAAA clock 08:00:00
..
100 g1 100 rejoin 0
= joined 0
101 g1 101 clock 08:00:00.000
= moment 0
nodes synchronised synchronised synchronised
total AAAA entries 102 trades 0 shares 0 last 20000
end
@ 0 102 102 102

# A node that is lost while it joins begins anew.
> g1 AAAA crash 0
>99 g1 AAAA clock 08:00:00
> g1 AAAA crash 1
> g1 AAAA rejoin 0
> g1 AAAA crash 0
> g1 AAAA rejoin 0
> g1 AAAA crash 2
..
100 g1 100 crash 1
= out 1
101 g1 101 rejoin 0
= joined 0
102 g1 102 crash 0
= out 0
103 g1 103 rejoin 0
= joined 0
104 g1 104 crash 2
= out 2
nodes synchronised lost lost
total AAAA entries 105 trades 0 shares 0 last 20000
end
@ 0 105 0 0

# A node that is joining does not carry the issue on.
> g1 AAAA crash 0
>99 g1 AAAA clock 08:00:00
>99 g1 AAAA clock 08:00:00
> g1 AAAA crash 1
> g1 AAAA rejoin 0
> g1 AAAA crash 2
..
200 g1 200 rejoin 0
= joined 0
halted g1 201 crash 2
nodes lost lost lost
total AAAA entries 201 trades 0 shares 0 last 20000
end
@ 6 0 0 0

# Of two issues one is halted, and the other goes on.
>> g1 * clock 09:00:00
>> g1 AAAA crash 0
>> g2 AAAA crash 1
>> g1 AAAA crash 2
>> g1 AAAA order p1 buy 20000 100
>> g1 BBBB order p1 buy 12000 100
>> g1 BBBB crash 2
market 1
issue AAAA base 20000 unit 100 low 15000 high 25000 prices 1001
0 g1 0 clock 09:00:00.000
due 08:00:00.000
phase collecting
due 09:00:00.000
phase trading
auction 20000 19500 20500
calm - -
= moment 2
1 g1 1 crash 0
= out 0
2 g2 0 crash 1
= out 1
halted g1 2 crash 2
nodes lost lost lost
total AAAA entries 3 trades 0 shares 0 last 20000
issue BBBB base 12000 unit 100 low 9000 high 15000 prices 601
0 g1 0 clock 09:00:00.000
due 08:00:00.000
phase collecting
due 09:00:00.000
phase trading
auction 12000 11700 12300
calm - -
= moment 2
1 g1 1 order p1 buy 12000 100
= accepted 1 0 100
2 g1 2 crash 2
= out 2
nodes synchronised synchronised lost
total BBBB entries 3 trades 0 shares 0 last 12000
end
@ 6 0 0 0

# All three nodes of each issue are lost, one after another; what comes later is not done.
>> g1 * crash 0
>> g1 * crash 1
>> g3 * crash 2
>> g1 * rejoin 0
>> g1 AAAA order p1 buy 20000 100
market 1
issue AAAA base 20000 unit 100 low 15000 high 25000 prices 1001
0 g1 0 crash 0
= out 0
1 g1 1 crash 1
= out 1
halted g3 0 crash 2
nodes lost lost lost
total AAAA entries 2 trades 0 shares 0 last 20000
issue BBBB base 12000 unit 100 low 9000 high 15000 prices 601
0 g1 0 crash 0
= out 0
1 g1 1 crash 1
= out 1
halted g3 0 crash 2
nodes lost lost lost
total BBBB entries 2 trades 0 shares 0 last 12000
end
@ 6 0 0 0

";

/// The script of the days on which one call fails.
pub(super) const CALLS: &str = "> g1 AAAA clock 09:00:00
> g1 AAAA order p2 sell 20010 100
> g1 AAAA order p3 sell 20400 100
> g1 AAAA order p1 buy market 200
";

/// Nodes that fail at several calls.
pub(super) const FAILING: &str = "# No call fails.
> g1 AAAA clock 09:00:00
> g1 AAAA order p2 sell 20010 100
> g1 AAAA order p3 sell 20400 100
> g1 AAAA order p1 buy market 200
..
3 g1 3 order p1 buy market 200
trade 20010 100 3 1
trade 20400 100 3 2
= accepted 3 200 0
nodes synchronised synchronised synchronised
total AAAA entries 4 trades 2 shares 200 last 20400
end
@ 0 4 4 4

# The loss is recorded behind the event at which the node failed.
! 0:2
> g1 AAAA clock 09:00:00
> g1 AAAA order p2 sell 20010 100
> g1 AAAA order p3 sell 20400 100
> g1 AAAA order p1 buy market 200
market 1
issue AAAA base 20000 unit 100 low 15000 high 25000 prices 1001
0 g1 0 clock 09:00:00.000
due 08:00:00.000
phase collecting
due 09:00:00.000
phase trading
auction 20000 19500 20500
calm - -
= moment 2
1 g1 1 order p2 sell 20010 100
= accepted 1 0 100
2 g1 2 order p3 sell 20400 100
= accepted 2 0 100
3 - 0 crash 0
= out 0
4 g1 3 order p1 buy market 200
trade 20010 100 4 1
trade 20400 100 4 2
= accepted 4 200 0
nodes lost synchronised synchronised
total AAAA entries 5 trades 2 shares 200 last 20400
end
@ 0 0 5 5

# A node fails while the loss of another is recorded.
! 0:2 1:3
> g1 AAAA clock 09:00:00
> g1 AAAA order p2 sell 20010 100
> g1 AAAA order p3 sell 20400 100
> g1 AAAA order p1 buy market 200
..
2 g1 2 order p3 sell 20400 100
= accepted 2 0 100
3 - 0 crash 0
= out 0
4 - 1 crash 1
= out 1
5 g1 3 order p1 buy market 200
trade 20010 100 5 1
trade 20400 100 5 2
= accepted 5 200 0
nodes lost lost synchronised
total AAAA entries 6 trades 2 shares 200 last 20400
end
@ 0 0 0 6

# Losses stand in the order in which the nodes failed.
! 1:2 0:3
> g1 AAAA clock 09:00:00
> g1 AAAA order p2 sell 20010 100
> g1 AAAA order p3 sell 20400 100
> g1 AAAA order p1 buy market 200
..
2 g1 2 order p3 sell 20400 100
= accepted 2 0 100
3 - 0 crash 1
= out 1
4 - 1 crash 0
= out 0
5 g1 3 order p1 buy market 200
trade 20010 100 5 1
trade 20400 100 5 2
= accepted 5 200 0
nodes lost lost synchronised
total AAAA entries 6 trades 2 shares 200 last 20400
end
@ 0 0 0 6

# Nodes that fail at one entry stand by their numbers.
! 1:2 0:2
> g1 AAAA clock 09:00:00
> g1 AAAA order p2 sell 20010 100
> g1 AAAA order p3 sell 20400 100
> g1 AAAA order p1 buy market 200
..
2 g1 2 order p3 sell 20400 100
= accepted 2 0 100
3 - 0 crash 0
= out 0
4 - 1 crash 1
= out 1
5 g1 3 order p1 buy market 200
trade 20010 100 5 1
trade 20400 100 5 2
= accepted 5 200 0
nodes lost lost synchronised
total AAAA entries 6 trades 2 shares 200 last 20400
end
@ 0 0 0 6

# One node after another fails in one turn: the issue is halted without its event.
! 0:2 1:3 2:4
> g1 AAAA clock 09:00:00
> g1 AAAA order p2 sell 20010 100
> g1 AAAA order p3 sell 20400 100
> g1 AAAA order p1 buy market 200
..
1 g1 1 order p2 sell 20010 100
= accepted 1 0 100
halted g1 2 order p3 sell 20400 100
nodes lost lost lost
total AAAA entries 2 trades 0 shares 0 last 20000
end
@ 6 0 0 0

# All fail at the first event.
! 0:0 1:0 2:0
> g1 AAAA clock 09:00:00
> g1 AAAA order p2 sell 20010 100
> g1 AAAA order p3 sell 20400 100
> g1 AAAA order p1 buy market 200
market 1
issue AAAA base 20000 unit 100 low 15000 high 25000 prices 1001
halted g1 0 clock 09:00:00.000
nodes lost lost lost
total AAAA entries 0 trades 0 shares 0 last 20000
end
@ 6 0 0 0

# A node fails while another reads from it: the rest is read from the third.
! 1:101
> g1 AAAA crash 0
>99 g1 AAAA clock 08:00:00
> g1 AAAA rejoin 0
..
100 g1 100 rejoin 0
= joined 0
101 - 0 crash 1
= out 1
nodes joining lost synchronised
total AAAA entries 102 trades 0 shares 0 last 20000
end
@ 0 64 0 102

# The next entry brings what is lacking.
! 1:101
> g1 AAAA crash 0
>99 g1 AAAA clock 08:00:00
> g1 AAAA rejoin 0
> g1 AAAA clock 08:00:00
..
100 g1 100 rejoin 0
= joined 0
101 - 0 crash 1
= out 1
102 g1 101 clock 08:00:00.000
= moment 0
nodes synchronised lost synchronised
total AAAA entries 103 trades 0 shares 0 last 20000
end
@ 0 103 0 103

";
