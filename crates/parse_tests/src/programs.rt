// Programs of C whose only directives are includes: what they print is no matter here.

/// Small output routines that the programs include.
pub const LIB: &str = r##"/* small output routines that most programs of the corpus include */
#include <u.h>
#include <libc.h>
static void outc(int c){ char b; b = c; write(1, &b, 1); }
static void outs(char *s){ int n; n = 0; while(s[n]) n++; if(n) write(1, s, n); }
static void outu(ulong v){ char t[12]; int i; i = 12; do { i--; t[i] = '0' + v % 10; v /= 10; } while(v); write(1, &t[i], 12 - i); }
static void outn(long v){ if(v < 0){ outc('-'); outu(-v); } else outu(v); }
static void outx(ulong v){ char t[8]; int i; for(i = 7; i >= 0; i--){ t[i] = "0123456789abcdef"[v & 15]; v >>= 4; } write(1, t, 8); }
static void nl(void){ write(1, "\n", 1); }
static void kv(char *k, long v){ outs(k); outs(" = "); outn(v); nl(); }
static void kx(char *k, ulong v){ outs(k); outs(" = "); outx(v); nl(); }
"##;

pub const PROGRAMS: [&str; 10] = [
    r##"#include <u.h>
#include <libc.h>
char *hex = "0123456789abcdef"; static char *h2(char *p, uint v, int n){ while(n--) *p++ = hex[v >> 4 * n & 15]; return p; }
void main(void){ uchar b[16]; char line[80], *p; long n; int i; ulong off; off = 0; while((n = read(0, b, 16)) > 0){ p = h2(line, off, 8); for(i = 0; i < 16; i++){ *p++ = ' '; if(i == 8) *p++ = ' '; if(i < n) p = h2(p, b[i], 2); else { *p++ = ' '; *p++ = ' '; } } *p++ = ' '; *p++ = '|'; for(i = 0; i < n; i++) *p++ = b[i] >= 32 && b[i] < 127 ? b[i] : '.'; *p++ = '|'; *p++ = '\n'; write(1, line, p - line); off += n; } exits(0); }
"##,
    r##"#include <u.h>
#include <libc.h>
static int rot(int c, int base){ return (c - base + 13) % 26 + base; }
void main(void){ char b[64]; long i, n; while(n = read(0, b, 64)){ for(i = 0; i < n; i++){ char *p = &b[i]; *p = *p >= 'a' && *p <= 'z' ? rot(*p, 'a') : *p >= 'A' && *p <= 'Z' ? rot(*p, 'A') : *p; } write(1, b, n); } exits("rotated"); }
"##,
    r##"#include "lib.h"
int m[3][4] = { { 1, 2, 3, 4 }, { 5, 6, 7, 8 }, { 9, 10, 11, 12 } };
char names[3][6] = { "one", "two", "three" }; int cube[2][3][4];
static int sumrow(int r[4]){ int i, s; s = 0; for(i = 0; i < 4; i++) s += r[i]; return s; }
static int summat(int (*a)[4], int n){ int s, i; s = 0; for(i = 0; i < n; i++) s += sumrow(a[i]); return s; }
static int trace(int a[][4]){ return a[0][0] + a[1][1] + a[2][2]; }
static void fill(int c[2][3][4]){ int i, j, k; for(i = 0; i < 2; i++) for(j = 0; j < 3; j++) for(k = 0; k < 4; k++) c[i][j][k] = i * 100 + j * 10 + k; }
void main(void)
{
    int i, j, t[4][3]; int (*p)[4]; int (*q)[3][4]; int (*whole)[3][4];
    for(i = 0; i < 3; i++) kv("row", sumrow(m[i])); kv("mat", summat(m, 3)); kv("trace", trace(m));
    for(i = 0; i < 3; i++) for(j = 0; j < 4; j++) t[j][i] = m[i][j];
    for(i = 0; i < 4; i++){ for(j = 0; j < 3; j++){ outn(t[i][j]); outc(' '); } nl(); }
    p = m; p++; kv("p", (*p)[3]); kv("p2", p[1][0]); kv("sizes", sizeof m * 10000 + sizeof m[0] * 100 + sizeof m[0][0]);
    fill(cube); q = cube; kv("cube", q[1][2][3]); kv("cube2", *(*(*(cube + 1) + 1) + 2)); q++; kv("q", (*q)[0][1]);
    whole = &m; kv("whole", (*whole)[2][1]); kv("len", sizeof *whole / sizeof **whole);
    for(i = 0; i < 3; i++){ outs(names[i]); outc(' '); outn(sizeof names[i]); outc(' '); } names[1][0] = 'T'; outs(names[1]); outs(names[2] + 2); nl();
    exits(0);
}
"##,
    r##"#include "lib.h"
/* objects with methods: a table of function pointers in a structure */
typedef struct Shape Shape;
typedef struct Ops Ops;
struct Ops { int (*area)(Shape*); int (*peri)(Shape*); void (*scale)(Shape*, int); char *name; };
struct Shape { Ops *ops; int a, b; };
static int rarea(Shape *s){ return s->a * s->b; }
static int rperi(Shape *s){ return 2 * (s->a + s->b); }
static void rscale(Shape *s, int k){ s->a *= k; s->b *= k; }
static int sarea(Shape *s){ return s->a * s->a; }
static int speri(Shape *s){ return 4 * s->a; }
static void sscale(Shape *s, int k){ s->a *= k; }
Ops rect = { rarea, rperi, rscale, "rect" };
Ops square = { .name = "square", .scale = sscale, .area = sarea, .peri = speri };
Shape shapes[] = { { &rect, 3, 4 }, { &square, 5, 0 }, { &rect, 10, 1 } };
typedef void (*Visit)(int, void*);
static void each(int n, Visit v, void *arg){ int i; for(i = 0; i < n; i++) v(i, arg); }
static void sum(int i, void *arg){ int *p; p = arg; *p += i; }
static void print(int i, void *arg){ outs(arg); outn(i); outc(' '); }
typedef struct State State;
struct State { State *(*next)(State*, int); int count; };
static State *even(State*, int);
static State *odd(State *s, int c){ if(c == '1') s->next = even; s->count++; return s; }
static State *even(State *s, int c){ if(c == '1') s->next = odd; s->count += 10; return s; }
void main(void)
{
    int i, t; Shape *s; State st, *p; char *c;
    for(i = 0; i < 3; i++){
        s = &shapes[i];
        outs(s->ops->name); outc(' '); outn(s->ops->area(s)); outc(' '); outn((*s->ops->peri)(s)); outc(' ');
        s->ops->scale(s, i + 2); outn(s->ops->area(s)); nl();
    }
    t = 0; each(10, sum, &t); kv("t", t); each(3, print, "#"); nl();
    st.next = even; st.count = 0; p = &st;
    for(c = "1101001"; *c; c++) p = p->next(p, *c);
    kv("count", st.count); kv("odd", st.next == odd);
    exits(0);
}
"##,
    r##"#include "lib.h"
int a = 5, b = -7, c = 3 * 4 + 1, z; char ch = 'x', neg = 200; short sh = 70000; uint big = 4294967295; long l = 1 << 20; uchar uc = -1;
int arr[5] = { 1, 2, 3 }; int full[] = { 10, 20, 30, 40 }; char text[] = "text"; char fixed[8] = "fix"; char exact[3] = "abc"; uchar ut[] = "\377\x80z"; char empty[] = ""; char brace[4] = { 'a', 'b' };
struct S { int x; char n[4]; int v[3]; } s = { 1, "ab", { 7, 8 } }; struct S ss[] = { { 1 }, { 2, "zz", { 1, 2, 3 } }, { 3, { 'p' } } };
int grid[][3] = { { 1 }, { 2, 3 }, { 4, 5, 6 } }; char *strs[] = { "a", "bc", "def", }; char words[][5] = { "four", "five5", "x" };
union { int i; char c; } u = { 0x41000000 }; int sz = sizeof(struct S) * 2, cond = 1 ? 2 : 3, neg1 = -1 >> 1, uns = 5u > -1, cast = (char)0x181, sh2 = 1 << 31 >> 31, logi = 3 && 0 || 5, cmp = 'a' < 'b', com = ~5 & 0xFF ^ 3;
void main(void)
{
    int i, j;
    kv("a", a); kv("b", b); kv("c", c); kv("z", z); kv("ch", ch); kv("neg", neg); kv("sh", sh); kx("big", big); kv("l", l); kv("uc", uc);
    for(i = 0; i < 5; i++) outn(arr[i]); nl(); kv("full", sizeof full); kv("text", sizeof text); kv("fixed", fixed[3] + fixed[7]); kv("exact", exact[2]); kv("ut", sizeof ut * 1000 + ut[0]); kv("empty", sizeof empty); kv("brace", brace[1] + brace[3]);
    kv("s", s.x + s.n[1] + s.n[2] + s.v[1] + s.v[2]); for(i = 0; i < 3; i++) kv("ss", ss[i].x * 1000 + ss[i].n[0] + ss[i].v[2]);
    for(i = 0; i < 3; i++) for(j = 0; j < 3; j++) outn(grid[i][j]); nl(); for(i = 0; i < 3; i++) outs(strs[i]); nl(); kv("words", sizeof words); outc(words[1][4]); outs(words[2]); nl();
    kv("u", u.c); kv("sz", sz); kv("cond", cond); kv("neg1", neg1); kv("uns", uns); kv("cast", cast); kv("sh2", sh2); kv("logi", logi); kv("cmp", cmp); kv("com", com);
    exits(0);
}
"##,
    r##"#include "lib.h"
int x = 5, y = 6; int *px = &x; int **ppx = &px; int ***pppx = &ppx;
char *words[] = { "alpha", "beta", "gamma", nil }; char **wp = words + 1;
typedef struct L L; struct L { int v; L *next; }; L pool[8]; int used; L *head;
static void swap(int *a, int *b){ int t; t = *a; *a = *b; *b = t; }
static void swapp(int **a, int **b){ int *t; t = *a; *a = *b; *b = t; }
static void insert(L **at, int v){ L *n; while(*at && (*at)->v < v) at = &(*at)->next; n = &pool[used++]; n->v = v; n->next = *at; *at = n; }
static void del(L **at, int v){ for(; *at; at = &(*at)->next) if((*at)->v == v){ *at = (*at)->next; return; } }
static void alloc(int **out, int *arena, int n){ *out = arena + n; }
int arena[10];
void main(void)
{
    int *a, *b; char **q; L *l; int *m[3], i; void *v; void **vp;
    kv("***", ***pppx); ***pppx = 8; kv("x", x); **pppx = &y; kv("px", *px); *pppx = &px;
    swap(&x, &y); kv("x", x); kv("y", y); a = &x; b = &y; swapp(&a, &b); kv("*a", *a); kv("*b", *b);
    for(q = words; *q; q++){ outs(*q); outc(**q); outc((*q)[1]); outc(*(*q + 2)); outc(' '); } nl();
    outs(*wp); outs(wp[1]); outs(wp[-1] + 2); nl(); wp++; kv("wp", wp - words);
    insert(&head, 5); insert(&head, 2); insert(&head, 9); insert(&head, 7); del(&head, 5); del(&head, 100); insert(&head, 1);
    for(l = head; l; l = l->next){ outn(l->v); outc(' '); } nl();
    for(i = 0; i < 3; i++) alloc(&m[i], arena, i * 3); *m[0] = 1; *m[1] = 2; m[2][3] = 3; kv("arena", arena[0] + arena[3] * 10 + arena[9] * 100);
    v = &x; *(int*)v += 1; kv("x", x); vp = &v; kv("**", *(int*)*vp); v = &v; kv("self", *(void**)v == v);
    exits(0);
}
"##,
    r##"#include "lib.h"
/* a generic quicksort over void*, sizes, a comparison and an exchange; bytes of pointers may not be read one by one */
typedef int Cmp(void*, void*); typedef void Swap(void*, void*, int);
static void swap(void *x, void *y, int n){ uchar *a = x, *b = y; int t; while(n--){ t = *a; *a++ = *b; *b++ = t; } }
static void sort(void *base, int n, int sz, Cmp *cmp, Swap *swap)
{
    uchar *a; int i, last;
    a = base;
    if(n < 2) return;
    swap(a, a + n / 2 * sz, sz);
    last = 0;
    for(i = 1; i < n; i++) if(cmp(a + i * sz, a) < 0){ last++; if(last != i) swap(a + last * sz, a + i * sz, sz); }
    if(last) swap(a, a + last * sz, sz);
    sort(a, last, sz, cmp, swap);
    sort(a + (last + 1) * sz, n - last - 1, sz, cmp, swap);
}
static int strcmp(char *a, char *b){ for(; *a == *b; a++, b++) if(!*a) return 0; return (uchar)*a - (uchar)*b; }
struct Rec { char *name; int age; char sex; };
struct Rec recs[] = { { "mary", 31, 'f' }, { "john", 27, 'm' }, { "zoe", 44, 'f' }, { "al", 27, 'm' }, { "bob", 8, 'm' }, { "eve", 99, 'f' } };
int ints[] = { 5, -3, 88, 0, 12, 7, -100, 42, 5, 6 }; short shorts[] = { 3, 1, 2, -5 }; char *strs[] = { "pear", "apple", "fig", "banana", "apple" };
static void rswap(void *a, void *b, int n){ struct Rec t, *p = a, *q = b; t = *p; *p = *q; *q = t; }
static void pswap(void *a, void *b, int n){ void **p = a, **q = b, *t; t = *p; *p = *q; *q = t; }
static int byname(void *a, void *b){ struct Rec *p, *q; p = a; q = b; return strcmp(p->name, q->name); }
static int byage(void *a, void *b){ struct Rec *p = a, *q = b; return p->age != q->age ? q->age - p->age : byname(a, b); }
static int icmp(void *a, void *b){ int x, y; x = *(int*)a; y = *(int*)b; return (x > y) - (x < y); }
static int scmp(void *a, void *b){ return *(short*)a - *(short*)b; }
static int pcmp(void *a, void *b){ return strcmp(*(char**)a, *(char**)b); }
void main(void)
{
    int i;
    sort(ints, sizeof ints / sizeof ints[0], sizeof ints[0], icmp, swap); for(i = 0; i < 10; i++){ outn(ints[i]); outc(' '); } nl();
    sort(shorts, 4, 2, scmp, swap); for(i = 0; i < 4; i++){ outn(shorts[i]); outc(' '); } nl();
    sort(recs, 6, sizeof(struct Rec), byname, rswap); for(i = 0; i < 6; i++){ outs(recs[i].name); outc(' '); } nl();
    sort(recs, 6, sizeof(struct Rec), byage, rswap); for(i = 0; i < 6; i++){ outs(recs[i].name); outn(recs[i].age); outc(recs[i].sex); outc(' '); } nl();
    sort(strs, 5, sizeof strs[0], pcmp, pswap); for(i = 0; i < 5; i++){ outs(strs[i]); outc(' '); } nl();
    exits(0);
}
"##,
    r##"#include "lib.h"
struct Point { int x, y; };
struct Rect { struct Point min, max; char *name; };
struct Mixed { char c; int i; short s; char d; uchar e[3]; short t; };
struct Rect r = { { 1, 2 }, { 11, 22 }, "rect" };
struct Rect rs[2];
static int width(struct Rect *r){ return r->max.x - r->min.x; }
static int area(struct Rect *r){ return width(r) * (r->max.y - r->min.y); }
static struct Point *corner(struct Rect *r, int i){ return i ? &r->max : &r->min; }
static void move(struct Point *p, int dx, int dy){ p->x += dx; p->y += dy; }
void main(void)
{
    struct Mixed m, *pm; struct Point p, *q; struct { int a; struct { int b, c; } in; } anon; int i;
    kv("area", area(&r)); move(&r.min, -1, -2); kv("area", area(&r)); move(corner(&r, 1), 5, 5); kv("x", corner(&r, 1)->x); outs(r.name); nl();
    rs[1] = r; rs[1].name = "copy"; rs[0] = rs[1]; rs[0].max.x = 100; kv("w", width(rs) + width(rs + 1)); outs(rs[0].name); outs((&r)->name); nl();
    m.c = -1; m.i = 70000; m.s = -2; m.d = 'd'; m.t = 300; for(i = 0; i < 3; i++) m.e[i] = 200 + i;
    pm = &m; kv("m", pm->c + pm->i + pm->s + pm->d + pm->e[0] + pm->e[2] + pm->t); kv("size", sizeof m); kv("size2", sizeof(struct Rect));
    p.x = 1; p.y = 2; q = &p; (*q).x += 10; q->y *= q->x; kv("p", p.x * 1000 + p.y);
    anon.a = 1; anon.in.b = 2; anon.in.c = 3; kv("anon", anon.a * 100 + anon.in.b * 10 + anon.in.c);
    exits(0);
}
"##,
    r##"#include "lib.h"
/* levels of unnamed substructures; conversion of arguments, assignments, returns */
struct A { int a; int same; };
struct B { int b; struct A; };
struct C { int csame; struct B; int c; };
struct D { struct C; union { int d1; uchar d2[4]; }; struct E { int e; } named; };
struct D d;
static struct A *toa(struct D *p){ return p; }
static int geta(struct A *p){ return p->a + p->same; }
static int getb(struct B *p){ return p->b + geta(p); }
void main(void)
{
    struct A *pa; struct B *pb; struct C *pc; struct D *pd;
    d.a = 1; d.same = 2; d.b = 3; d.c = 4; d.d1 = 0x05060708; d.named.e = 6;
    d.csame = 7; pd = &d; pa = pd; pb = pd; pc = pd; pa->same = 100;
    kv("d.same", d.same); kv("pc->same", pc->same + pc->csame); kv("pb->same", pb->same); kv("pa->a", pa->a); kv("toa", toa(pd)->same); kv("geta", geta(&d)); kv("getb", getb(pc)); kv("d2", d.d2[3]);
    pa = pc; pa->a = 9; kv("a", pd->a); kv("eq", toa(&d) == pa); pb = pc; kv("b", pb->b); kv("size", sizeof d);
    exits(0);
}
"##,
    r##"#include "lib.h"
/* a bytecode interpreter: stack machine with locals, jumps and calls */
enum { HALT, PUSH, ADD, SUB, MUL, LT, JZ, JMP, LOAD, STORE, PRINT, CALL, RET, DUP, POP, MOD, EQ };
short fibp[] = { PUSH, 15, CALL, 6, PRINT, HALT, STORE, 0, LOAD, 0, PUSH, 2, LT, JZ, 18, LOAD, 0, RET, LOAD, 0, PUSH, 1, SUB, CALL, 6, LOAD, 0, PUSH, 2, SUB, CALL, 6, ADD, RET };
short primes[] = { PUSH, 2, STORE, 0, LOAD, 0, PUSH, 60, LT, JZ, 55, PUSH, 2, STORE, 1, LOAD, 0, LOAD, 1, LOAD, 1, MUL, LT, JZ, 27, JMP, 43, LOAD, 0, LOAD, 1, MOD, JZ, 46, LOAD, 1, PUSH, 1, ADD, STORE, 1, JMP, 15, LOAD, 0, PRINT, LOAD, 0, PUSH, 1, ADD, STORE, 0, JMP, 4, HALT };
short loop[] = { PUSH, 0, DUP, STORE, 0, STORE, 1, LOAD, 0, PUSH, 3000, LT, JZ, 32, LOAD, 1, LOAD, 0, DUP, MUL, ADD, STORE, 1, LOAD, 0, PUSH, 1, ADD, STORE, 0, JMP, 7, LOAD, 1, PRINT, LOAD, 0, PUSH, 3000, EQ, PRINT, PUSH, 1, POP, HALT };
int stack[200], frames[400], ret[60]; int steps;
static char *run(short *code)
{
    int pc, sp, fp, rp, v;
    pc = sp = fp = rp = steps = 0;
    for(;;){
        steps++;
        switch(code[pc++]){
        case HALT: return nil;
        case PUSH: stack[sp++] = code[pc++]; break;
        case ADD: sp--; stack[sp - 1] += stack[sp]; break;
        case SUB: sp--; stack[sp - 1] -= stack[sp]; break;
        case MUL: sp--; stack[sp - 1] *= stack[sp]; break;
        case MOD: sp--; stack[sp - 1] %= stack[sp]; break;
        case LT: sp--; stack[sp - 1] = stack[sp - 1] < stack[sp]; break;
        case EQ: sp--; stack[sp - 1] = stack[sp - 1] == stack[sp]; break;
        case JZ: v = code[pc++]; if(stack[--sp] == 0) pc = v; break;
        case JMP: pc = code[pc]; break;
        case LOAD: stack[sp++] = frames[fp + code[pc++]]; break;
        case STORE: frames[fp + code[pc++]] = stack[--sp]; break;
        case PRINT: outn(stack[--sp]); nl(); break;
        case DUP: stack[sp] = stack[sp - 1]; sp++; break;
        case POP: sp--; break;
        case CALL: ret[rp++] = pc + 1; pc = code[pc]; fp += 4; if(rp == 60) return "calls"; break;
        case RET: pc = ret[--rp]; fp -= 4; break;
        default: return "bad code";
        }
    }
}
void main(void){ run(fibp); kv("steps", steps); run(primes); kv("steps", steps); run(loop); kv("steps", steps); frames[0] = 9; loop[0] = 99; exits(run(loop)); }
"##,
];

/// The word counter, beside its header.
pub const WC_HEADER: &str = r##"#define OUT 0
#define IN 1
typedef struct Count Count;
struct Count { ulong n[3]; };
"##;

pub const WC: &str = r##"#include <u.h>
#include <libc.h>
#include "wc.h"
char buf[256];
Count total;
void put(ulong v, char end)
{
    char t[12];
    int i;
    i = 11;
    t[i] = end;
    do {
        i = i - 1;
        t[i] = '0' + v % 10;
        v = v / 10;
    } while(v != 0);
    write(1, &t[i], 12 - i);
}
void main(void)
{
    int state;
    long i, n;
    state = OUT;
    while((n = read(0, buf, sizeof buf)) > 0)
        for(i = 0; i < n; i++){
            total.n[2]++;
            switch(buf[i]){
            case '\n':
                total.n[0]++;
            case ' ':
            case '\t':
                state = OUT;
                break;
            default:
                if(state == OUT)
                    total.n[1]++;
                state = IN;
            }
        }
    put(total.n[0], ' ');
    put(total.n[1], ' ');
    put(total.n[2], '\n');
    exits(nil);
}
"##;
