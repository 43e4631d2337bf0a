// The constant text of the filter: `@` stands for the prefix of all names.

/// Up to the readers and writers of types with parts.
pub(crate) const HEAD: &str = r#"
/* ---- A filter: of each line of standard input, a sample, it writes a line, the output. Needs POSIX. ---- */

enum { @_LINE = 65536, @_SAMPLES = 1000000, @_IN = 4 * @_LINE, @_OUT = @_LINE, @_SPARE = 64 };

static unsigned char @_in[@_IN + @_SPARE], @_out[@_OUT + @_SPARE];
static size_t @_out_size;

#ifdef __clang__
#pragma clang diagnostic ignored "-Wunused-function"
#endif

static inline int64_t @_wrapped(uint64_t n)
{
    return (n <= (uint64_t)INT64_MAX) ? (int64_t)n : -(int64_t)(UINT64_MAX - n) - 1;
}

static void @_flush(void)
{
    size_t done = 0;
    while (done < @_out_size) {
        const ssize_t n = write(1, @_out + done, @_out_size - done);
        if (n > 0) {
            done += (size_t)n;
        } else if (n == 0 || errno != EINTR) {
            fputs("output: cannot be written\n", stderr);
            exit(3);
        }
    }
    @_out_size = 0;
}

/* What is written so far is out before this is told. */
static void @_fail(unsigned long line, const char *fault)
{
    @_flush();
    fprintf(stderr, "stream: line %lu: %s\n", line, fault);
    exit(1);
}

static inline void @_put(const char *text, size_t size)
{
    if (@_out_size + size > @_OUT) {
        @_flush();
    }
    memcpy(@_out + @_out_size, text, size);
    @_out_size += size;
}

/* The digits of a number stand at the end of the first 20 bytes: all 20 from there on are copied, and the others left. */
static inline void @_put_i(const int64_t *v)
{
    static const char pairs[] =
        "0001020304050607080910111213141516171819202122232425262728293031323334353637383940414243444546474849"
        "5051525354555657585960616263646566676869707172737475767778798081828384858687888990919293949596979899";
    char text[40], *p = text + 20;
    uint64_t rest = (*v < 0) ? 0U - (uint64_t)*v : (uint64_t)*v;
    while (rest >= 10) {
        p -= 2;
        memcpy(p, pairs + rest % 100 * 2, 2);
        rest /= 100;
    }
    if (rest > 0 || p == text + 20) {
        *--p = (char)('0' + (char)rest);
    }
    if (*v < 0) {
        *--p = '-';
    }
    const size_t size = (size_t)(text + 20 - p);
    if (@_out_size + size > @_OUT) {
        @_flush();
    }
    memcpy(@_out + @_out_size, p, 20);
    @_out_size += size;
}

static inline void @_put_b(const bool *v)
{
    @_put(*v ? "true" : "false", *v ? 4 : 5);
}

static inline void @_put_u(const uint8_t *v)
{
    (void)v;
    @_put("unit", 4);
}

/* A line as it is read: how far, and its fault, if there is one, and where. A line feed ends it. */
struct @_reader { const unsigned char *at, *faulty; const char *fault; };

static bool @_faulty(struct @_reader *r, const char *fault)
{
    r->faulty = r->at;
    r->fault = fault;
    return false;
}

static inline bool @_is_digit(unsigned char c)
{
    return c >= '0' && c <= '9';
}

/* What stands behind most words, a blank, a parenthesis or a line feed, is below these. */
static inline bool @_is_of_word(unsigned char c)
{
    return c >= '-' && (@_is_digit(c) || (c >= 'a' && c <= 'z') || (c >= 'A' && c <= 'Z') || c == '-');
}

/* Whether these bytes, which are a word, are a number in its one spelling, of whatever size. */
static bool @_is_number(const unsigned char *p, size_t size)
{
    const size_t sign = (*p == '-') ? 1U : 0U;
    size_t digits = sign;
    while (@_is_digit(p[digits])) {
        digits++;
    }
    return digits == size && digits > sign && (p[sign] != '0' || (sign == 0 && digits == 1));
}

/* The first letter of the type of the value that begins here, or a space where none does. */
static char @_kind(const unsigned char *p)
{
    static const char *const words[] = { "unit", "true", "false", "none", "(pair", "(event", "(list" };
    size_t size = (*p == '(') ? 1U : 0U;
    while (@_is_of_word(p[size])) {
        size++;
    }
    for (size_t i = 0; i < sizeof words / sizeof words[0]; i++) {
        if (strlen(words[i]) == size && memcmp(p, words[i], size) == 0) {
            return "UBBEPEL"[i];
        }
    }
    return @_is_number(p, size) ? 'I' : ' ';
}

/* Here no value of this kind is read: why? */
static bool @_wrong(struct @_reader *r, char kind)
{
    const char there = @_kind(r->at);
    return @_faulty(r, (there == ' ') ? "no value" : (there != kind) ? "other type" : "number range");
}

/* Goes on behind this word, where it stands here. */
static inline bool @_is_word(struct @_reader *r, const char *text, size_t size)
{
    if (memcmp(r->at, text, size) != 0 || @_is_of_word(r->at[size])) {
        return false;
    }
    r->at += size;
    return true;
}

/* The same where a value of this kind must stand, of which this is the last word. */
static inline bool @_word(struct @_reader *r, char kind, const char *text, size_t size)
{
    return @_is_word(r, text, size) || @_wrong(r, kind);
}

/* Whether a list of n elements has room for this one. */
static inline bool @_room(struct @_reader *r, uint32_t n, uint32_t most)
{
    return n < most || @_faulty(r, "too many elements");
}

static inline bool @_byte(struct @_reader *r, unsigned char c)
{
    if (*r->at != c) {
        return @_faulty(r, "no value");
    }
    r->at++;
    return true;
}

/* Where the digits that begin there end, and what they are modulo 2^64. */
static inline const unsigned char *@_digits(const unsigned char *at, uint64_t *n)
{
    uint64_t sum = 0;
    for (unsigned digit = *at - (unsigned)'0'; digit < 10; digit = *++at - (unsigned)'0') {
        sum = sum * 10 + digit;
    }
    *n = sum;
    return at;
}

/* Whether there are digits, with a sign before them or without, which are a number of 64 bits in its one spelling. */
static bool @_fits(const unsigned char *start, const unsigned char *first, const unsigned char *end, uint64_t n)
{
    return end > first && end - first <= 19 && (*first != '0' || end - start == 1) && n <= (uint64_t)INT64_MAX + (uint64_t)(first - start);
}

static inline bool @_read_i(struct @_reader *r, int64_t *v)
{
    const unsigned char *const start = r->at;
    const bool negative = *start == '-';
    const unsigned char *const first = start + (negative ? 1 : 0);
    uint64_t n;
    const unsigned char *const end = @_digits(first, &n);
    /* 1 to 18 digits without a 0 at first always fit. */
    if (((size_t)(end - first) - 1 >= 18 || *first == '0') && !@_fits(start, first, end, n)) {
        return @_wrong(r, 'I');
    }
    if (@_is_of_word(*end)) {
        return @_wrong(r, 'I');
    }
    r->at = end;
    *v = @_wrapped(negative ? 0U - n : n);
    return true;
}

static inline bool @_read_b(struct @_reader *r, bool *v)
{
    *v = @_is_word(r, "true", 4);
    return *v || @_word(r, 'B', "false", 5);
}

static inline bool @_read_u(struct @_reader *r, uint8_t *v)
{
    *v = 0;
    return @_word(r, 'U', "unit", 4);
}
"#;

/// Behind these: lines, and `main`.
pub(crate) const TAIL: &str = r#"
/* Whether `=` stands here, and the line ends behind it: the value before again. */
static inline bool @_is_same(const struct @_reader *r)
{
    return *r->at == '=' && r->at[1] == '\n';
}

/* Tells the fault of a line, unless the line is too long: then that. */
static void @_fail_line(const unsigned char *at, unsigned long line, const char *fault)
{
    const unsigned char *const end = (const unsigned char *)memchr(at, '\n', @_LINE + 1);
    @_fail(line, (end == NULL) ? "too long" : fault);
}

/* The step of a line behind the first, which begins there, and the blank behind it. */
static inline int64_t @_read_step(struct @_reader *r, unsigned long line)
{
    const unsigned char *const start = r->at, *const first = start + 1;
    uint64_t n;
    const unsigned char *const end = @_digits(first, &n);
    if (*start != '+' || *end != ' ' || *first == '0' || !@_fits(first, first, end, n)) {
        @_fail_line(start, line, "step");
    }
    r->at = end + 1;
    return @_wrapped(n);
}

/* The value of the line that begins at `start`, up to its end. */
static inline void @_read_value(struct @_reader *r, const unsigned char *start, unsigned long line, @_input *input)
{
    const unsigned char *const value = r->at;
    if (!@_read_input(r, input) || (*r->at != '\n' && !@_faulty(r, "no value"))) {
        char fault[64];
        snprintf(fault, sizeof fault, "%s at %ld", r->fault, (long)(r->faulty - value));
        @_fail_line(start, line, fault);
    }
}

/* Reads a line, behind which a line feed stands. Answers its step, 0 of the first. */
static inline int64_t @_read_line(struct @_reader *r, unsigned long line, @_input *input)
{
    const unsigned char *const start = r->at;
    int64_t dt = 0;
    if (line > 1) {
        dt = @_read_step(r, line);
    } else if (*start == '+') {
        @_fail_line(start, line, "step");
    } else if (@_is_same(r)) {
        @_fail(line, "nothing before");
    }
    if (@_is_same(r)) {
        r->at++;
    } else {
        @_read_value(r, start, line, input);
    }
    if (r->at - start > @_LINE) {
        @_fail(line, "too long");
    }
    return dt;
}

/* What is read and not yet used: up to `whole` lines with their line feeds, behind it a part of one; and whether there is no more. */
struct @_source { const unsigned char *at, *whole; unsigned char *end; bool ended; };

static void @_read_more(struct @_source *s)
{
    const size_t kept = (size_t)(s->end - s->at);
    memmove(@_in, s->at, kept);
    const ssize_t n = read(0, @_in + kept, @_IN - kept);
    if (n == 0) {
        s->ended = true;
    } else if (n < 0 && errno != EINTR) {
        fputs("stream: cannot be read\n", stderr);
        exit(3);
    }
    size_t size = kept + (size_t)((n > 0) ? n : 0);
    s->at = @_in;
    s->end = @_in + size;
    while (size > kept && @_in[size - 1] != '\n') {
        size--;
    }
    s->whole = @_in + ((size > kept) ? size : 0);
}

/* Whether there is a line of this number, behind which a line feed stands then. What is written so far is out before more is read. */
static bool @_find_line(struct @_source *s, unsigned long line)
{
    while (s->at == s->whole) {
        if (s->at < s->end && line > @_SAMPLES) {
            @_fail(line, "too many samples");
        }
        if (s->end - s->at > @_LINE) {
            @_fail(line, "too long");
        }
        if (s->ended && s->at == s->end) {
            return false;
        }
        if (s->ended) {
            *s->end++ = '\n';
            s->whole = s->end;
        } else {
            @_flush();
            @_read_more(s);
        }
    }
    if (line > @_SAMPLES) {
        @_fail(line, "too many samples");
    }
    return true;
}

int main(void)
{
    static struct @_state state;
    static @_input input;
    static @_output output;
    struct @_source source = { @_in, @_in, @_in, false };
    unsigned long line = 1;
    signal(SIGPIPE, SIG_IGN);
    @_init(&state);
    for (; @_find_line(&source, line); line++) {
        struct @_reader r = { source.at, source.at, "" };
        const int64_t dt = @_read_line(&r, line, &input);
        @_step_within(&state, dt, &input, &output);
        @_put_output(&output);
        @_put("\n", 1);
        source.at = r.at + 1;
    }
    @_flush();
    return 0;
}
"#;
