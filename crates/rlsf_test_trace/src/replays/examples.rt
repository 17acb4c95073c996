//! Worked examples, with the blocks and the sizes that they end with: what each text prints.

use super::replays;

static EXAMPLES: [(&[u8], &str); 24] = [
    // A freed block is joined with its neighbours.
    (
        b"8x8 4096 4096\ninsert 4096 96\nalloc 1 0 1\nalloc 2 0 1\nalloc 3 0 1\nfree 1\nfree 2\nblock 4096 96 0\nblock 4096 96 1\n",
        "insert some 96\nalloc 1 at 4112\nalloc 2 at 4144\nalloc 3 none\nfree 1 done\nfree 2 done\nblock 4096 64 free\nblock none\nstatus 0",
    ),
    // A payload that shrinks leaves its tail.
    (
        b"8x8 4096 4096\ninsert 4096 96\nalloc 1 17 1\nusable 1\nrealloc 1 0\nalloc 2 0 1\n",
        "insert some 96\nalloc 1 at 4112\nusable 1 48\nrealloc 1 at 4112\nalloc 2 at 4144\nstatus 0",
    ),
    // A chunk without a greatest length grows by what is appended.
    (
        b"59x8 4096 4096\ninsert 4096 256\nalloc 1 384 1\nappend 4352 256\nalloc 1 384 1\nblock 4096 512 0\nblock 4096 512 1\nblock 4096 512 2\n",
        "insert some 256\nalloc 1 none\nappend 256\nalloc 1 at 4112\nblock 4096 416 used\nblock 4512 64 free\nblock none\nstatus 0",
    ),
    // Where chunks have a greatest length, what is appended is a chunk of its own.
    (
        b"8x8 4096 4096\ninsert 4096 256\nalloc 1 384 1\nappend 4352 256\nalloc 1 384 1\n",
        "insert some 256\nalloc 1 none\nappend 256\nalloc 1 none\nstatus 0",
    ),
    // A class of the same first-level row that does not reach.
    (
        b"8x1 4096 4096\ninsert 4096 128\nalloc 1 66 1\n",
        "insert some 128\nalloc 1 none\nstatus 0",
    ),
    // And one that does.
    (
        b"8x8 4096 4096\ninsert 4096 128\nalloc 1 66 1\n",
        "insert some 128\nalloc 1 at 4112\nstatus 0",
    ),
    // The front that is skipped counts.
    (
        b"8x8 4097 4096\ninsert 4097 1024\nblock 4097 1023 0\n",
        "insert some 1023\nblock 4128 960 free\nstatus 0",
    ),
    // An alignment of 32.
    (
        b"12x16 4096 65536\ninsert 4096 65536\nalloc 1 1 32\nusable 1\n",
        "insert some 65536\nalloc 1 at 4128\nusable 1 32\nstatus 0",
    ),
    // A payload of no bytes at its block's end, deallocated without its alignment.
    (
        b"12x16 4096 65536\ninsert 4096 65536\nalloc 1 0 32\nusable 1\nufree 1\nblock 4096 65536 0\n",
        "insert some 65536\nalloc 1 at 4128\nusable 1 0\nufree 1 done\nblock 4096 65504 free\nstatus 0",
    ),
    // Chunks of the greatest length, the last one newest.
    (
        b"1x1 4096 4096\ninsert 4096 200\nalloc 1 0 1\nalloc 2 0 1\nalloc 3 0 1\nalloc 4 0 1\n",
        "insert some 192\nalloc 1 at 4240\nalloc 2 at 4176\nalloc 3 at 4112\nalloc 4 none\nstatus 0",
    ),
    // What is left is too short for a chunk.
    (
        b"1x1 4096 4096\ninsert 4096 160\n",
        "insert some 128\nstatus 0",
    ),
    // The newest free block of a class is taken first.
    (
        b"8x8 4096 4096\ninsert 4096 256\nalloc 1 0 1\nalloc 2 0 1\nalloc 3 0 1\nalloc 4 0 1\nfree 1\nfree 3\nalloc 5 0 1\n",
        "insert some 256\nalloc 1 at 4112\nalloc 2 at 4144\nalloc 3 at 4176\nalloc 4 at 4208\nfree 1 done\nfree 3 done\nalloc 5 at 4176\nstatus 0",
    ),
    // A payload moves by less than its length, into the free block before its own. Each byte is kept.
    (
        b"8x8 4096 4096\ninsert 4096 256\nalloc 1 0 1\nalloc 2 40 1\nalloc 3 100 1\n\
          put 2 0 101\nput 2 1 102\nput 2 2 103\nput 2 3 104\nput 2 4 105\nput 2 5 106\nput 2 6 107\nput 2 7 108\n\
          put 2 8 109\nput 2 9 110\nput 2 10 111\nput 2 11 112\nput 2 12 113\nput 2 13 114\nput 2 14 115\nput 2 15 116\n\
          put 2 16 117\nput 2 17 118\nput 2 18 119\nput 2 19 120\nput 2 20 121\nput 2 21 122\nput 2 22 123\nput 2 23 124\n\
          put 2 24 125\nput 2 25 126\nput 2 26 127\nput 2 27 128\nput 2 28 129\nput 2 29 130\nput 2 30 131\nput 2 31 132\n\
          put 2 32 133\nput 2 33 134\nput 2 34 135\nput 2 35 136\nput 2 36 137\nput 2 37 138\nput 2 38 139\nput 2 39 140\n\
          put 2 40 141\nput 2 41 142\nput 2 42 143\nput 2 43 144\nput 2 44 145\nput 2 45 146\nput 2 46 147\nput 2 47 148\n\
          free 1\nrealloc 2 70\nusable 2\n\
          get 2 0\nget 2 1\nget 2 2\nget 2 3\nget 2 4\nget 2 5\nget 2 6\nget 2 7\nget 2 8\nget 2 9\nget 2 10\nget 2 11\n\
          get 2 12\nget 2 13\nget 2 14\nget 2 15\nget 2 16\nget 2 17\nget 2 18\nget 2 19\nget 2 20\nget 2 21\nget 2 22\nget 2 23\n\
          get 2 24\nget 2 25\nget 2 26\nget 2 27\nget 2 28\nget 2 29\nget 2 30\nget 2 31\nget 2 32\nget 2 33\nget 2 34\nget 2 35\n\
          get 2 36\nget 2 37\nget 2 38\nget 2 39\nget 2 40\nget 2 41\nget 2 42\nget 2 43\nget 2 44\nget 2 45\nget 2 46\nget 2 47\n\
          block 4096 256 0\nblock 4096 256 1\nblock 4096 256 2\n",
        "insert some 256\nalloc 1 at 4112\nalloc 2 at 4144\nalloc 3 at 4208\n\
         put 2 done\nput 2 done\nput 2 done\nput 2 done\nput 2 done\nput 2 done\nput 2 done\nput 2 done\n\
         put 2 done\nput 2 done\nput 2 done\nput 2 done\nput 2 done\nput 2 done\nput 2 done\nput 2 done\n\
         put 2 done\nput 2 done\nput 2 done\nput 2 done\nput 2 done\nput 2 done\nput 2 done\nput 2 done\n\
         put 2 done\nput 2 done\nput 2 done\nput 2 done\nput 2 done\nput 2 done\nput 2 done\nput 2 done\n\
         put 2 done\nput 2 done\nput 2 done\nput 2 done\nput 2 done\nput 2 done\nput 2 done\nput 2 done\n\
         put 2 done\nput 2 done\nput 2 done\nput 2 done\nput 2 done\nput 2 done\nput 2 done\nput 2 done\n\
         free 1 done\nrealloc 2 at 4112\nusable 2 80\n\
         get 2 101\nget 2 102\nget 2 103\nget 2 104\nget 2 105\nget 2 106\nget 2 107\nget 2 108\nget 2 109\nget 2 110\nget 2 111\nget 2 112\n\
         get 2 113\nget 2 114\nget 2 115\nget 2 116\nget 2 117\nget 2 118\nget 2 119\nget 2 120\nget 2 121\nget 2 122\nget 2 123\nget 2 124\n\
         get 2 125\nget 2 126\nget 2 127\nget 2 128\nget 2 129\nget 2 130\nget 2 131\nget 2 132\nget 2 133\nget 2 134\nget 2 135\nget 2 136\n\
         get 2 137\nget 2 138\nget 2 139\nget 2 140\nget 2 141\nget 2 142\nget 2 143\nget 2 144\nget 2 145\nget 2 146\nget 2 147\nget 2 148\n\
         block 4096 96 used\nblock 4192 128 used\nblock none\nstatus 0",
    ),
    // A payload that may not move takes from the free block behind it alone.
    (
        b"8x8 4096 4096\ninsert 4096 256\nalloc 1 17 1\nalloc 2 0 1\nnrealloc 1 100\nnrealloc 2 140\nblock 4096 256 0\nblock 4096 256 1\nblock 4096 256 2\nnrealloc 1 0\nblock 4096 256 1\nnrealloc 1 48\nusable 1\nblock 4096 256 0\nblock 4096 256 1\nblock 4096 256 2\n",
        "insert some 256\nalloc 1 at 4112\nalloc 2 at 4176\nnrealloc 1 none\nnrealloc 2 at 4176\nblock 4096 64 used\nblock 4160 160 used\nblock none\nnrealloc 1 at 4112\nblock 4128 32 free\nnrealloc 1 at 4112\nusable 1 48\nblock 4096 64 used\nblock 4160 160 used\nblock none\nstatus 0",
    ),
    // It doesn't move into the free block before its own, and then nothing changes.
    (
        b"8x8 4096 4096\ninsert 4096 256\nalloc 1 0 1\nalloc 2 40 1\nalloc 3 100 1\nfill 2 7\nfree 1\nnrealloc 2 70\nusable 2\nget 2 0\nget 2 47\nblock 4096 256 0\nblock 4096 256 1\nblock 4096 256 2\n",
        "insert some 256\nalloc 1 at 4112\nalloc 2 at 4144\nalloc 3 at 4208\nfill 2 done\nfree 1 done\nnrealloc 2 none\nusable 2 48\nget 2 7\nget 2 7\nblock 4096 32 free\nblock 4128 64 used\nblock 4192 128 used\nstatus 0",
    ),
    // A refused reallocation changes nothing.
    (
        b"8x8 4096 4096\ninsert 4096 256\nalloc 1 0 1\nalloc 2 40 1\nalloc 3 100 1\nfree 1\nrealloc 2 70\nrealloc 2 200\nusable 2\nblock 4096 256 0\nblock 4096 256 1\n",
        "insert some 256\nalloc 1 at 4112\nalloc 2 at 4144\nalloc 3 at 4208\nfree 1 done\nrealloc 2 at 4112\nrealloc 2 none\nusable 2 80\nblock 4096 96 used\nblock 4192 128 used\nstatus 0",
    ),
    // A payload moves into the free block before its own, and leaves a free rest. Each byte is kept.
    (
        b"8x8 4096 4096\ninsert 4096 256\nalloc 1 17 1\nalloc 2 40 1\nalloc 3 50 1\n\
          fill 2 9\nfree 1\nrealloc 2 70\nusable 2\n\
          get 2 0\nget 2 1\nget 2 2\nget 2 3\nget 2 4\nget 2 5\nget 2 6\nget 2 7\nget 2 8\nget 2 9\nget 2 10\nget 2 11\n\
          get 2 12\nget 2 13\nget 2 14\nget 2 15\nget 2 16\nget 2 17\nget 2 18\nget 2 19\nget 2 20\nget 2 21\nget 2 22\nget 2 23\n\
          get 2 24\nget 2 25\nget 2 26\nget 2 27\nget 2 28\nget 2 29\nget 2 30\nget 2 31\nget 2 32\nget 2 33\nget 2 34\nget 2 35\n\
          get 2 36\nget 2 37\nget 2 38\nget 2 39\nget 2 40\nget 2 41\nget 2 42\nget 2 43\nget 2 44\nget 2 45\nget 2 46\nget 2 47\n\
          block 4096 256 0\nblock 4096 256 1\nblock 4096 256 2\n",
        "insert some 256\nalloc 1 at 4112\nalloc 2 at 4176\nalloc 3 at 4240\n\
         fill 2 done\nfree 1 done\nrealloc 2 at 4112\nusable 2 80\n\
         get 2 9\nget 2 9\nget 2 9\nget 2 9\nget 2 9\nget 2 9\nget 2 9\nget 2 9\nget 2 9\nget 2 9\nget 2 9\nget 2 9\n\
         get 2 9\nget 2 9\nget 2 9\nget 2 9\nget 2 9\nget 2 9\nget 2 9\nget 2 9\nget 2 9\nget 2 9\nget 2 9\nget 2 9\n\
         get 2 9\nget 2 9\nget 2 9\nget 2 9\nget 2 9\nget 2 9\nget 2 9\nget 2 9\nget 2 9\nget 2 9\nget 2 9\nget 2 9\n\
         get 2 9\nget 2 9\nget 2 9\nget 2 9\nget 2 9\nget 2 9\nget 2 9\nget 2 9\nget 2 9\nget 2 9\nget 2 9\nget 2 9\n\
         block 4096 96 used\nblock 4192 32 free\nblock 4224 96 used\nstatus 0",
    ),
    // A start that can't be rounded.
    (
        b"8x8 18446744073709551552 63\ninsert 18446744073709551585 0\n",
        "insert none\nstatus 0",
    ),
    // The greatest addresses.
    (
        b"8x8 18446744073709551424 191\ninsert 18446744073709551424 191\nalloc 1 0 1\n",
        "insert some 160\nalloc 1 at 18446744073709551440\nstatus 0",
    ),
    // Appends to a full chunk.
    (
        b"59x8 4096 4096\ninsert 4096 64\nalloc 1 0 1\nappend 4160 31\nappend 4160 32\nblock 4096 96 1\n",
        "insert some 64\nalloc 1 at 4112\nappend 0\nappend 32\nblock 4128 32 free\nstatus 0",
    ),
    // The example above, with chunks of a greatest length.
    (
        b"8x8 4096 4096\ninsert 4096 64\nalloc 1 0 1\nappend 4160 31\nappend 4160 32\n",
        "insert some 64\nalloc 1 at 4112\nappend 0\nappend 0\nstatus 0",
    ),
    // An alignment of 4096.
    (
        b"8x8 4096 8192\ninsert 4096 8192\nalloc 1 1 4096\nusable 1\nblock 4096 8192 0\nblock 4096 8192 1\n",
        "insert some 8192\nalloc 1 at 8192\nusable 1 32\nblock 4096 4128 used\nblock 8224 4032 free\nstatus 0",
    ),
    // A used block shorter than what was sought.
    (
        b"8x8 4096 4096\ninsert 4096 256\nalloc 1 0 1\nalloc 2 1 64\nusable 2\nblock 4096 256 1\nblock 4096 256 2\n",
        "insert some 256\nalloc 1 at 4112\nalloc 2 at 4160\nusable 2 32\nblock 4128 64 used\nblock 4192 128 free\nstatus 0",
    ),
    // The free bytes before and after an allocation.
    (
        b"12x16 4096 4096\ninsert 4096 1024\nblock 4096 1024 0\nalloc 1 8 8\nblock 4096 1024 1\n",
        "insert some 1024\nblock 4096 992 free\nalloc 1 at 4112\nblock 4128 960 free\nstatus 0",
    ),
];

#[test]
fn worked_examples(rt: HostRuntime) {
    replays(&rt, &EXAMPLES);
}
